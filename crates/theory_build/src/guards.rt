// The literals of a group's guards.
use theory_form::Lit;

// The literals of a group's guards, and of both together.
#[derive(Clone, Copy, PartialEq, Eq, Debug)]
pub struct Guards {
    pub left: Lit,
    pub right: Lit,
    pub both: Lit,
}
