// What a look at a clause tells.
ghost use Rattle.theory_form.specs.Looks.{Shows};

use crate::assignments::{Assignment, Truth};
use crate::literals::Lit;

/// What a look at the literals of a clause tells, with their places.
///
/// * `True`: the literal at this place is true.
/// * `Wide`: the literals at these two places have no value.
/// * `Single`: the literal at this place has no value, and all others are false.
/// * `Empty`: all are false.
#[derive(Clone, Copy, PartialEq, Eq, Debug)]
pub enum Sight {
    True(usize),
    Wide(usize, usize),
    Single(usize),
    Empty,
}

/// Looks at the literals of a clause until one is true or two have no value.
pub fn look(assignment: &Assignment, lits: &[Lit]) -> Sight
    ensures { Shows assignment.now lits.now result }
{
    let mut free: Option<usize> = None;
    for (i, l) in lits.iter().enumerate() {
        match assignment.truth(*l) {
            Truth::True => return Sight::True(i),
            Truth::False => {}
            Truth::Free => match free {
                Some(k) => return Sight::Wide(k, i),
                None => free = Some(i),
            },
        }
    }
    match free {
        Some(k) => Sight::Single(k),
        None => Sight::Empty,
    }
}
