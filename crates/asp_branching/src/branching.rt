// Which literal is decided next.
ghost use Rattle.std.specs.Prelude.{◌≡◌, ◌<◌, None, length, IfSome, IsTrue};
ghost use Rattle.theory_form.specs.Truth.{IsFreeIn, value_of};

use crate::heap::Heap;
use std::alloc::{AllocError, Global};
use std::marker::Model;
use theory_form::{Assignment, Lit, Var};

/// Variables by activity, with the values that they had last (activities that decay: Moskewicz, Madigan, Zhao, Zhang and Malik
/// 2001; saved values: Pipatsrisawat and Darwiche 2007).
///
/// Contracts see one value: whatever it holds, it is right to decide what it picks.
#[derive(Drop)]
pub struct Branching {
    heap: Heap,
    values: Vec<bool>,
}

impl Model for Branching {
    ghost Value = { Unit {0} };

    ghost view = { λ _. tt };
}

// Whether this is the number of a variable that has a place in the assignment and no value.
fn is_open(a: &Assignment, v: Var) -> bool
    ensures { IsTrue result → (0 < v.0) × (v.0 < length a.now) × (value_of a.now v.0 ≡ None) }
{
    v.0 > 0 && v.0 < a.places() && a.value(v).is_none()
}

// Takes variables out of the heap, up to one that has no value.
fn next_open(heap: &mut Heap, a: &Assignment) -> Option<Var>
    ensures { IfSome result (λ v. (0 < v.0) × (v.0 < length a.now) × (value_of a.now v.0 ≡ None)) }
{
    while let Some(number) = heap.pop() {
        if is_open(a, Var(number)) {
            return Some(Var(number));
        }
    }
    None
}

impl Branching {
    /// It knows no variable.
    pub fn new(alloc: Global) -> Self {
        Branching {
            heap: Heap::new(alloc),
            values: Vec::new(alloc),
        }
    }

    /// It knows the variables up to `vars`, and has the new ones to pick, with the value false. Only memory can run out, and then
    /// nothing is lost.
    pub fn reserve(&mut self, vars: u64) -> Result<(), AllocError> {
        let places = vars.checked_add(1).ok_or(AllocError)? as usize;
        if self.values.len() < places {
            self.values.resize(places, false)?;
        }
        self.heap.reserve(places)
    }

    /// A variable was met in the analysis of a conflict. One that it does not know is passed over.
    pub fn bump(&mut self, v: Var) {
        self.heap.bump(v.0);
    }

    /// A conflict was analysed: what was met before counts less from now on.
    pub fn decay(&mut self) {
        self.heap.decay();
    }

    /// A literal that was true lost its value: its variable can be picked again, with this sign.
    pub fn give_back(&mut self, l: Lit) {
        let place = l.var.0 as usize;
        if place < self.values.len() {
            self.values[place] = l.yes;
        }
        self.heap.push(l.var.0);
    }

    /// A literal over a variable without a value, one of the most active that it knows. `None` where it has none left.
    pub fn pick(&mut self, a: &Assignment) -> Option<Lit>
        ensures free { IfSome result (IsFreeIn a.now) }
        ensures within { IfSome result (λ l. (0 < l.var.0) × (l.var.0 < length a.now)) }
    {
        let var = next_open(&mut self.heap, a)?;
        let yes = self.values.get(var.0 as usize).copied().unwrap_or(false);
        Some(Lit { var, yes })
    }
}
