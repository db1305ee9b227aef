//! Answer sets of programs of the small language: without variables, aggregates and guards of choices, by their trees.
ghost use Rattle.std.specs.Prelude.{◌↔◌, IfOk, IsTrue};
ghost use Rattle.ap_eval.specs.AtomSets.{has};
ghost use Rattle.ap_eval.specs.AnswerSets.{IsAnswerSet};

mod derive;
mod model;
#[cfg(test)]
mod tests;

use crate::small::derive::is_founded;
use crate::small::model::is_model;
use ap_syntax::Text;
use ap_syntax::small::Program;
use std::alloc::{AllocError, Global};

/// Whether the set of these atoms is an answer set of the program (Gelfond and Lifschitz 1988): it is the least set
/// that is closed under its reduct, and no constraint's body is true in it. A choice rule lets each of its atoms be in
/// the set or not. The order of the atoms, and how often each stands in the list, do not matter. Preference statements
/// are not looked at. Its one error is want of memory.
pub fn small_answer_set(alloc: Global, p: &Program, x: &[Text]) -> Result<bool, AllocError>
    ensures { IfOk result (λ answer. IsTrue answer ↔ IsAnswerSet p.now (has x.now)) }
{
    let statements = p.statements.as_slice();
    if is_model(statements, x) {
        is_founded(alloc, statements, x)
    } else {
        Ok(false)
    }
}
