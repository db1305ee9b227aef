// The law of total assignments.
ghost use Rattle.std.specs.Prelude.{◌≡◌, ◌+◌, ℕ, Bool, List, Option, Some, length};
ghost use Rattle.theory_form.specs.declared.literals.Lit.{Lit};
ghost use Rattle.theory_form.specs.Theories.{IsTheory, TheoryView, clause_of};
ghost use Rattle.theory_form.specs.Truth.{IsSettled};
ghost use Rattle.theory_model.specs.Bodies.{DefinesBodies};
ghost use Rattle.theory_model.specs.Models.{IsModel};
ghost use Rattle.theory_model.specs.Whole.{IsWhole};
ghost use Rattle.search_law.specs.Closed.{IsClosed, IsTotal, truths};

/// A total assignment is a model of the theory where no clause of it is unit or false, no program has an unfounded set, and no
/// row implies a clause that is unit or false. The theory names its own variables alone, and its clauses define its bodies
/// (Lin and Zhao, "ASSAT: Computing Answer Sets of a Logic Program by SAT Solvers", 2004).
pub fn closed_assignments_are_models()
    ensures { (t : TheoryView) (a : List (Option Bool)) → IsTheory t → IsWhole t → DefinesBodies t → length a ≡ length t.variables + 1 → IsTotal a →
        ((id : ℕ) (c : List Lit) → clause_of t id ≡ Some c → IsSettled a c) → IsClosed t a → IsModel t (truths a) }
{}
