//! Sets of atoms that can be asked for their members.
ghost use Rattle.std.specs.Prelude.{◌≡◌, ℕ, Bool};
ghost use Rattle.definite.specs.Rules.{marked};
ghost use Rattle.ground_form.specs.Sets as sets;

use ground_form::{AtomId, AtomSet};
use sqlite_items::Items;

/// A set of atoms that tells of each atom whether it has it.
pub trait Membership {
    ghost test: { Self → ℕ → Bool };

    /// Whether the atom of this number is in the set.
    fn has(&self, atom: u64) -> bool
        ensures { result ≡ test self.now atom };
}

impl Membership for AtomSet {
    ghost test = { sets.has };

    fn has(&self, atom: u64) -> bool {
        self.contains(AtomId(atom))
    }
}

/// A table that has a truth value for each number.
impl Membership for Items<bool> {
    ghost test = { marked };

    fn has(&self, atom: u64) -> bool {
        let marks = self.as_slice();
        let place = atom as usize;
        if place < marks.len() {
            marks[place]
        } else {
            false
        }
    }
}
