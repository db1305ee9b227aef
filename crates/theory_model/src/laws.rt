//! Clauses that are true in every model.

ghost use Rattle.std.specs.Prelude.{◌≡◌, ℕ, Bool, List, Option, Some, IsTrue};
ghost use Rattle.theory_form.specs.declared.literals.Lit.{Lit};
ghost use Rattle.theory_form.specs.declared.literals.ClauseId.{ClauseId};
ghost use Rattle.theory_form.specs.Hints.{FollowsByHints};
ghost use Rattle.theory_form.specs.Theories.{TheoryView};
ghost use Rattle.theory_model.specs.Truth.{clause_true};
ghost use Rattle.theory_model.specs.Loops.{AreAtomsOf, IsLoopClause};
ghost use Rattle.theory_model.specs.Models.{IsModel};

/// A clause that follows by hints is true wherever the clauses that the hints may name are true.
pub fn follows_is_true()
    ensures { (look : ℕ → Option (List Lit)) (places : ℕ) (c : List Lit) (hints : List ClauseId) (f : ℕ → Bool) →
        FollowsByHints look places c hints →
        ((id : ℕ) (d : List Lit) → look id ≡ Some d → IsTrue (clause_true f d)) →
        IsTrue (clause_true f c) }
{}

/// The loop clause of an atom of a set of atoms of one program is true in every model.
pub fn loop_clause_is_true()
    ensures { (t : TheoryView) (f : ℕ → Bool) → IsModel t f → (block : ℕ) (u : ℕ → Bool) → AreAtomsOf t block u →
        (v : ℕ) → IsTrue (u v) → (c : List Lit) → IsLoopClause t u v c → IsTrue (clause_true f c) }
{}
