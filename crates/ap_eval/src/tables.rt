//! Tables that have a truth value for each atom.
ghost use Rattle.std.specs.Prelude.{◌≡◌, ◌↔◌, ℕ, ◌<◌, All, IsTrue, IfOk, length};
ghost use Rattle.definite.specs.Rules.{marked};
ghost use Rattle.ground_form.specs.Ranges.{IsNumberOf};
ghost use Rattle.ground_form.specs.Sets.{has};
ghost use Rattle.ground_form.specs.declared.atoms.AtomId.{AtomId as Id};

use ground_form::{AtomId, AtomSet};
use sqlite_items::Items;
use std::alloc::{AllocError, Global};

/// Whether these are numbers of atoms, of which there are so many.
pub fn are_atoms_of(atoms: usize, ids: &[AtomId]) -> bool
    ensures { IsTrue result ↔ All (λ (id : Id). IsNumberOf atoms id.0) ids.now }
{
    ids.iter().all(|id| 0 < id.0 && id.0 <= atoms as u64)
}

/// A table of so many places in which these atoms are marked.
pub fn marks_of(alloc: Global, places: usize, ids: &[AtomId]) -> Result<Items<bool>, AllocError>
    requires { All (λ (id : Id). id.0 < places) ids.now }
    ensures same { IfOk result (λ marks. (a : ℕ) → marked marks a ≡ has ids.now a) }
    ensures size { IfOk result (λ marks. length marks ≡ places) }
{
    let mut marks = Items::from_vec(vec![in alloc; false; places]?);
    for id in ids {
        marks.set(id.0 as usize, true);
    }
    Ok(marks)
}

/// The set of the marked atoms.
pub fn members(alloc: Global, marks: &[bool]) -> Result<AtomSet, AllocError>
    ensures { IfOk result (λ x. (a : ℕ) → has x a ≡ marked marks.now a) }
{
    let mut ids = Vec::new(alloc);
    for place in 0..marks.len() {
        if marks[place] {
            ids.push(AtomId(place as u64))?;
        }
    }
    Ok(AtomSet::new(ids))
}
