//! Laws on steps. The functions do nothing: each contract is a law.
ghost use Rattle.std.specs.Prelude.{◌≡◌, ◌↔◌, ℕ, List, Contains};
ghost use Rattle.ap_term.specs.Value.{Value};
ghost use Rattle.ap_term.specs.Table.{KeepsIds};
ghost use Rattle.join_form.specs.declared.step.Step.{Step};
ghost use Rattle.join_form.specs.Patterns.{Assignment};
ghost use Rattle.join_form.specs.Steps.{StepHolds, step_places, IsStepOf};

/// Whether a step holds hangs on the values of its places alone.
pub fn steps_hang_on_their_places()
    ensures { (table : List Value) (rows : List (List (List Value))) (a b : Assignment) (step : Step) →
        ((n : ℕ) → Contains (step_places step) n → a n ≡ b n) →
        StepHolds table rows a step → StepHolds table rows b step }
{}

/// Whether a step holds does not change as the table of values grows.
pub fn steps_keep_their_meaning()
    ensures { (old new : List Value) (places : ℕ) (rows : List (List (List Value))) (a : Assignment) (step : Step) →
        KeepsIds old new → IsStepOf old places step → StepHolds new rows a step ↔ StepHolds old rows a step }
{}
