// The laws of theories that grow.
ghost use Rattle.std.specs.Prelude.{◌≡◌, ◌++◌, ◌∷◌, [], ◌↔◌, ℕ, Bool, List, None, Option, IsTrue, length};
ghost use Rattle.ground_form.specs.Programs.{Parts};
ghost use Rattle.ground_form.specs.Ranges.{IsInRange};
ghost use Rattle.theory_build.specs.Completion.{base_theory, with_program};
ghost use Rattle.theory_build.specs.Exclusion.{search_var};
ghost use Rattle.theory_form.specs.Theories.{Extends, IsSearch, TheoryView};
ghost use Rattle.theory_form.specs.declared.literals.Lit.{Lit};
ghost use Rattle.theory_form.specs.declared.rows.VarKind.{VarKind as Kind};
ghost use Rattle.theory_law.specs.Appending.{CanStandBehind};
ghost use Rattle.theory_law.specs.Growth.{AllTrue, IsMore};
ghost use Rattle.theory_law.specs.Standing.{StandsOn};
ghost use Rattle.theory_model.specs.Loops.{IsLoopClause};
ghost use Rattle.theory_model.specs.Models.{IsModel};
ghost use Rattle.theory_model.specs.Whole.{IsWhole};

/// What keeps a theory one that a search can work on: it begins with a program's own theory, names its own variables alone,
/// and its clauses define its bodies.
///
/// * `base`: a program's own theory is one.
/// * `behind`: so is one with a program behind it.
/// * `plain`: so is one with plain variables and clauses more.
/// * `skipped`: so is one that skipped a number.
pub fn theories_stand()
    ensures base { (g : Parts) → IsInRange g → StandsOn g (base_theory g) }
    ensures behind { (g : Parts) (t : TheoryView) (h : Parts) (joins : List Lit) → StandsOn g t → CanStandBehind t h joins →
        StandsOn g (with_program t h joins) }
    ensures plain { (g : Parts) (t new : TheoryView) (kinds : List Kind) (slots : List (Option (List Lit))) → StandsOn g t →
        IsMore t new kinds slots → StandsOn g new }
    ensures skipped { (g : Parts) (t : TheoryView) (reserved : ℕ) → StandsOn g t →
        StandsOn g (record t { clauses = t.clauses ++ None ∷ []; reserved = reserved }) }
{}

/// Which theories begin with which.
///
/// * `behind`: a theory with a program behind it begins with the theory.
/// * `plain`: so does one with plain variables and clauses more.
/// * `itself` and `further`: a theory begins with itself, and with what that begins with which it begins with.
pub fn theories_begin()
    ensures behind { (t : TheoryView) (h : Parts) (joins : List Lit) → Extends t (with_program t h joins) }
    ensures plain { (t new : TheoryView) (kinds : List Kind) (slots : List (Option (List Lit))) → IsMore t new kinds slots → Extends t new }
    ensures itself { (t : TheoryView) → Extends t t }
    ensures further { (r s t : TheoryView) → Extends r s → Extends s t → Extends r t }
{}

/// The models of a theory with plain variables and clauses more are those of the theory in which these clauses are true.
pub fn plain_variables_mean()
    ensures { (t new : TheoryView) (kinds : List Kind) (slots : List (Option (List Lit))) (f : ℕ → Bool) → IsWhole t →
        IsMore t new kinds slots → IsModel new f ↔ (IsModel t f × AllTrue f slots) }
{}

/// The search guard of a theory.
///
/// * `there`: the theory has one.
/// * `stays`: it is that of each theory with which the theory begins.
pub fn search_guards_stay()
    ensures there { (g : Parts) (t : TheoryView) → StandsOn g t → IsSearch t (search_var t) }
    ensures stays { (g : Parts) (s t : TheoryView) → StandsOn g s → StandsOn g t → Extends s t → search_var t ≡ search_var s }
{}

/// There is no more than one loop clause of an atom and a set.
pub fn loop_clauses_are_one()
    ensures { (t : TheoryView) (u : ℕ → Bool) (v : ℕ) (c d : List Lit) → IsLoopClause t u v c → IsLoopClause t u v d → c ≡ d }
{}
