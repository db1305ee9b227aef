//! Conditions as sets of literals.
ghost use Rattle.std.specs.Prelude.{◌↔◌, IsTrue};
ghost use Rattle.sets.specs.Literals.{AreLiteralsInOrder};

use crate::order::compare_literals;
use std::cmp::Ordering;

/// Whether these literals are in order, by atom and the positive one first, and each stands once.
pub fn are_in_order(literals: &[i64]) -> bool
    ensures { IsTrue result ↔ AreLiteralsInOrder literals.now }
{
    for place in 1..literals.len() {
        if compare_literals(literals[place - 1], literals[place]) != Ordering::Less {
            return false;
        }
    }
    true
}
