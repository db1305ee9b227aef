//! Each answer set is optimal, or an optimal one is preferred to it.
//!
//! The functions of this crate do nothing. Each contract is a law.
#![tactic(auto)]

ghost use Rattle.std.specs.Prelude.{◌⊎◌, ℕ, Bool, IsTrue};
ghost use Rattle.ground_form.specs.AnswerSets.{IsAnswerSet};
ghost use Rattle.ground_form.specs.Programs.{Parts};
ghost use Rattle.opt_core.specs.Optima.{IsOptimal};
ghost use Rattle.optima_law.specs.Strict.{IsStrictOn};

/// Where better is irreflexive and transitive on the answer sets of a ground program, each of them is optimal, or an optimal
/// one is better. It is any relation that a test tells, that of a user's type too.
pub fn optimal_or_better()
    ensures { (g : Parts) (better : (ℕ → Bool) → (ℕ → Bool) → Bool) →
        IsStrictOn (IsAnswerSet g) (λ x y. IsTrue (better x y)) → (x : ℕ → Bool) → IsAnswerSet g x →
        IsOptimal (IsAnswerSet g) (λ y z. IsTrue (better y z)) x ⊎
        ((y : ℕ → Bool) × IsOptimal (IsAnswerSet g) (λ y z. IsTrue (better y z)) y × IsTrue (better y x)) }
{}
