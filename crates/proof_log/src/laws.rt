//! The clauses of valid steps are true.
ghost use Rattle.proof_log.specs.declared.steps.Step.{Step};
ghost use Rattle.proof_log.specs.After.{IsAfter};
ghost use Rattle.proof_log.specs.States.{AddedAreTrue, StateView};
ghost use Rattle.proof_log.specs.Valid.{IsValid};

use theory_model::{follows_is_true, loop_clause_is_true};

/// Where every clause that a step added and that is not erased is true in each model of the theory, so it is after a valid
/// step, and no clause that was erased before is asked for.
pub fn added_are_true()
    ensures { (s after : StateView) (step : Step) → AddedAreTrue s → IsValid s step → IsAfter s step after → AddedAreTrue after }
{
    follows_is_true();
    loop_clause_is_true();
}
