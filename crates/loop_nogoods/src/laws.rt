//! What an unfounded set is good for.
ghost use Rattle.std.specs.Prelude.{ℕ, ◌⊎◌, Bool, false, List, Option, IsTrue};
ghost use Rattle.theory_form.specs.declared.literals.Lit.{Lit};
ghost use Rattle.theory_form.specs.Theories.{TheoryView};
ghost use Rattle.theory_form.specs.Truth.{IsFalseClause, IsUnitBy};
ghost use Rattle.theory_model.specs.Loops.{IsLoopClause};
ghost use Rattle.loop_nogoods.specs.Tight.{AreClausesSettled, AreSupported, HasSupportClauses, IsTight};
ghost use Rattle.loop_nogoods.specs.Unfounded.{IsUnfounded};

/// The loop clause of an atom of an unfounded set tells something under the assignment: it is false where the atom is true,
/// and else it is unit, and its literal without a value is the negation of the atom.
pub fn loop_clause_is_false_or_unit()
    ensures { (t : TheoryView) (block : ℕ) (a : List (Option Bool)) (u : ℕ → Bool) → IsUnfounded t block a u →
        (v : ℕ) → IsTrue (u v) → (c : List Lit) → IsLoopClause t u v c →
        IsFalseClause a c ⊎ IsUnitBy a c (record { var = record { 0 = v }; yes = false }) }
{}

/// A tight program (Fages, "Consistency of Clark's completion and existence of stable models", 1994) has no unfounded set
/// where each of its atoms that is not false has a support that is not. So it is where no clause of the theory is unit or
/// false, among which are those of the atoms' supports: then nobody need look for unfounded sets of the program.
pub fn tight_programs_have_no_unfounded_set()
    ensures none { (t : TheoryView) (block : ℕ) (a : List (Option Bool)) → IsTight t block → AreSupported t block a →
        (u : ℕ → Bool) → IsUnfounded t block a u → ⊥ }
    ensures supported { (t : TheoryView) (block : ℕ) (a : List (Option Bool)) → HasSupportClauses t block →
        AreClausesSettled t a → AreSupported t block a }
{}
