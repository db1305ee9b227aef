//! What stays true where variables and clauses are added to a theory.

ghost use Rattle.std.specs.Prelude.{◌≡◌, ◌≤◌, ◌<◌, ℕ, Bool, List, Option, Some, IsTrue, length};
ghost use Rattle.std.specs.List.{All};
ghost use Rattle.theory_form.specs.declared.literals.Lit.{Lit};
ghost use Rattle.theory_form.specs.declared.literals.ClauseId.{ClauseId};
ghost use Rattle.theory_form.specs.Hints.{FollowsByHints};
ghost use Rattle.theory_form.specs.Theories.{Extends, TheoryView};
ghost use Rattle.theory_model.specs.Bodies.{DefinesBodies, HasNoMoreBodies};
ghost use Rattle.theory_model.specs.Loops.{AreAtomsOf, IsLoopClause};
ghost use Rattle.theory_model.specs.Models.{IsModel};
ghost use Rattle.theory_model.specs.Whole.{AreOver, IsWhole};

/// A model of a theory is a model of each theory with which it begins.
pub fn models_of_beginnings()
    ensures { (s t : TheoryView) (f : ℕ → Bool) → Extends s t → IsModel t f → IsModel s f }
{}

/// A clause that follows by hints does so where there are more variables, if it and the clauses that may be named are over
/// the first of them.
pub fn hints_hold_in_longer_theories()
    ensures { (n m : ℕ) (look : ℕ → Option (List Lit)) (c : List Lit) (hints : List ClauseId) → n ≤ m → All (λ l. l.var.0 < n) c →
        ((id : ℕ) (d : List Lit) → look id ≡ Some d → All (λ l. l.var.0 < n) d) → FollowsByHints look n c hints → FollowsByHints look m c hints }
{}

/// Loop clauses of a theory that names its own variables alone.
///
/// * `over`: a loop clause is over the theory's variables.
/// * `stays`: it stays the loop clause of its atom and set where the theory grows.
pub fn loop_clauses_stay()
    ensures over { (t : TheoryView) (block : ℕ) (u : ℕ → Bool) (v : ℕ) (c : List Lit) → IsWhole t → AreAtomsOf t block u → IsTrue (u v) →
        IsLoopClause t u v c → AreOver (length t.variables) c }
    ensures stays { (s t : TheoryView) (block : ℕ) (u : ℕ → Bool) (v : ℕ) (c : List Lit) → Extends s t → IsWhole s → AreAtomsOf s block u →
        IsLoopClause s u v c → IsLoopClause t u v c }
{}

/// Where the clauses of a theory define its bodies, they do so in each theory that begins with it and has no more bodies.
pub fn bodies_stay_defined()
    ensures { (s t : TheoryView) → Extends s t → HasNoMoreBodies s t → DefinesBodies s → DefinesBodies t }
{}
