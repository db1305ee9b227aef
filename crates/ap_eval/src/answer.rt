//! Whether a set of atoms is an answer set of a ground program.
ghost use Rattle.std.specs.Prelude.{◌↔◌, IsTrue, IfOk};
ghost use Rattle.ground_form.specs.AnswerSets.{IsAnswerSet};
ghost use Rattle.ground_form.specs.Sets.{has};

use crate::reduction::reduct;
use crate::tables::{are_atoms_of, marks_of};
use definite::least;
use ground_form::{AtomSet, GroundProgram};
use std::alloc::{AllocError, Global};

/// Whether a set of atoms is an answer set of a ground program (Gelfond and Lifschitz 1988), none of whose inputs is handed
/// in as a fact: it is the least set that is closed under its reduct, and no constraint's body is true in it. An atom that
/// the program has not is in no answer set. Its one error is want of memory. It looks at each part of the program once.
pub fn is_answer_set(alloc: Global, g: &GroundProgram, x: &AtomSet) -> Result<bool, AllocError>
    ensures { IfOk result (λ answer. IsTrue answer ↔ IsAnswerSet g.now (has x.now)) }
{
    let atoms = g.atoms().len();
    if !are_atoms_of(atoms, x.ids()) {
        return Ok(false);
    }
    let marks = marks_of(alloc, atoms + 1, x.ids())?;
    let rules = reduct(alloc, g, &marks)?;
    let least = least(alloc, &rules, atoms + 1)?;
    Ok(least.marks.as_slice() == marks.as_slice())
}
