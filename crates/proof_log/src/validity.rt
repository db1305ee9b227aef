//! The laws of valid logs.
ghost use Rattle.std.specs.Prelude.{◌≡◌, ◌++◌, ◌∷◌, [], ◌<◌, ◌≤◌, ℕ, Bool, List, Option, Some, None, IsSome, IsTrue, length};
ghost use Rattle.theory_form.specs.declared.literals.Lit.{Lit};
ghost use Rattle.theory_form.specs.Theories.{Extends, TheoryView, clause_of};
ghost use Rattle.theory_model.specs.Models.{IsModel};
ghost use Rattle.theory_model.specs.Truth.{clause_true};
ghost use Rattle.theory_model.specs.Whole.{AreOver, IsWhole};
ghost use Rattle.proof_log.specs.declared.steps.Step.{Step};
ghost use Rattle.proof_log.specs.After.{IsAfter};
ghost use Rattle.proof_log.specs.Logs.{IsLog, IsStepOver, SkipsNoMore};
ghost use Rattle.proof_log.specs.States.{AddedAreTrue, StateView, clause_among, entry_of};
ghost use Rattle.proof_log.specs.Steps.{IsJudged};
ghost use Rattle.proof_log.specs.Valid.{IsValid};

use theory_model::{
    follows_is_true, hints_hold_in_longer_theories, loop_clause_is_true, loop_clauses_stay,
    models_of_beginnings,
};

/// Which steps keep a log valid.
///
/// * `none`: the log without steps is valid over a theory that skipped no number.
/// * `judged`: a valid step that is judged keeps the log valid over the theory after it, if what it lists is over the theory's
///   variables.
/// * `others`: so does each step that is not judged.
pub fn steps_keep_logs()
    ensures none { (t : TheoryView) → ((k : ℕ) → 0 < k → k ≤ length t.clauses → IsSome (clause_of t k)) → IsLog t [] [] }
    ensures judged { (s after : StateView) (steps : List Step) (step : Step) → IsLog s.theory steps s.added → IsValid s step →
        IsStepOver (length s.theory.variables) step → IsAfter s step after → IsLog after.theory (steps ++ step ∷ []) after.added }
    ensures others { (t : TheoryView) (steps : List Step) (added : List (Option (List Lit))) (step : Step) → (IsJudged step → ⊥) →
        IsLog t steps added → IsLog t (steps ++ step ∷ []) added }
{}

/// What is true of the clauses that are kept in a valid log, those of the theory and those that steps added.
///
/// * `models`: each is true in every model of the theory.
/// * `over`: each is over the theory's variables, if the theory names no others.
/// * `apart`: those that steps added have numbers that the theory skipped.
/// * `within`: no number is above those of the theory.
pub fn logs_are_true()
    ensures models { (t : TheoryView) (steps : List Step) (added : List (Option (List Lit))) → IsLog t steps added → (f : ℕ → Bool) → IsModel t f →
        (id : ℕ) (c : List Lit) → clause_among t added id ≡ Some c → IsTrue (clause_true f c) }
    ensures over { (t : TheoryView) (steps : List Step) (added : List (Option (List Lit))) → IsLog t steps added → IsWhole t →
        (id : ℕ) (c : List Lit) → clause_among t added id ≡ Some c → AreOver (length t.variables) c }
    ensures apart { (t : TheoryView) (steps : List Step) (added : List (Option (List Lit))) → IsLog t steps added →
        (id : ℕ) (c : List Lit) → entry_of added id ≡ Some c → clause_of t id ≡ None }
    ensures within { (t : TheoryView) (steps : List Step) (added : List (Option (List Lit))) → IsLog t steps added →
        (id : ℕ) → length t.clauses < id → clause_among t added id ≡ None }
{
    follows_is_true();
    loop_clause_is_true();
    loop_clauses_stay();
}

/// A log that is valid over a theory which names its own variables alone is valid over each longer theory that skipped no
/// number more, with the same clauses that are kept.
pub fn logs_stay_valid()
    ensures { (s t : TheoryView) (steps : List Step) (added : List (Option (List Lit))) → Extends s t → IsWhole s → SkipsNoMore s t →
        IsLog s steps added → IsLog t steps added }
{
    hints_hold_in_longer_theories();
    loop_clauses_stay();
}

/// Clauses that steps added stay true where the theory grows, since each model of the longer theory is one of the theory.
pub fn added_stay_true()
    ensures { (s : StateView) (t : TheoryView) → AddedAreTrue s → Extends s.theory t → AddedAreTrue (record s { theory = t }) }
{
    models_of_beginnings();
}
