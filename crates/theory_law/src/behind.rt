// The laws of programs that stand behind a theory.
ghost use Rattle.std.specs.Prelude.{◌≡◌, ℕ, Bool, List, IsTrue, length};
ghost use Rattle.ground_form.specs.Acyclic.{HasOnlyAtomHeads, IsAcyclic};
ghost use Rattle.ground_form.specs.AnswerSets.{IsAnswerSetWith};
ghost use Rattle.ground_form.specs.Programs.{Parts};
ghost use Rattle.ground_form.specs.Ranges.{IsInRange, IsNumberOf};
ghost use Rattle.theory_build.specs.Completion.{HasBase, base_theory, with_program};
ghost use Rattle.theory_form.specs.Theories.{TheoryView};
ghost use Rattle.theory_form.specs.declared.literals.Lit.{Lit};
ghost use Rattle.theory_law.specs.Appending.{CanStandBehind};
ghost use Rattle.theory_law.specs.Cuts.{AgreeOn, cut, facts_of};
ghost use Rattle.theory_model.specs.Whole.{IsWhole};
ghost use Rattle.theory_model.specs.Models.{IsModel};

/// The models of a theory with a program behind it are the models of the theory, extended by the answer sets of the
/// program, each in one way. An input is a fact where a literal that is joined to it is true.
///
/// * `keeps`: a model of the whole is a model of the theory.
/// * `sound`: what it has of the program's atoms is an answer set of the program with the joined facts.
/// * `complete`: each model of the theory extends by each answer set of the program with the joined facts.
/// * `one`: models of the whole that agree on the theory's variables and on the program's atoms agree on every variable.
pub fn programs_behind_are_answer_sets()
    ensures keeps { (t : TheoryView) (g : Parts) (joins : List Lit) (f : ℕ → Bool) → CanStandBehind t g joins →
        IsModel (with_program t g joins) f → IsModel t f }
    ensures sound { (t : TheoryView) (g : Parts) (joins : List Lit) (f : ℕ → Bool) → CanStandBehind t g joins →
        IsModel (with_program t g joins) f → IsAnswerSetWith g (facts_of g joins f) (cut (length t.variables) g f) }
    ensures complete { (t : TheoryView) (g : Parts) (joins : List Lit) (f x : ℕ → Bool) → CanStandBehind t g joins →
        IsModel t f → IsAnswerSetWith g (facts_of g joins f) x →
        (h : ℕ → Bool) × IsModel (with_program t g joins) h × AgreeOn t f h × ((a : ℕ) → cut (length t.variables) g h a ≡ x a) }
    ensures one { (t : TheoryView) (g : Parts) (joins : List Lit) (f h : ℕ → Bool) → CanStandBehind t g joins →
        IsModel (with_program t g joins) f → IsModel (with_program t g joins) h → AgreeOn t f h →
        ((a : ℕ) → cut (length t.variables) g f a ≡ cut (length t.variables) g h a) → AgreeOn (with_program t g joins) f h }
{}

/// Each model of a theory extends in exactly one way to an acyclic program behind it whose rules are no choices and no
/// constraints.
///
/// * `extends`: each model of the theory extends to a model of the whole.
/// * `one`: models of the whole that agree on the theory's variables agree on every variable.
/// * `says`: what a model of the whole has of the program's atoms is the one answer set of the program with the joined
///   facts.
pub fn acyclic_programs_follow()
    ensures extends { (t : TheoryView) (g : Parts) (joins : List Lit) (f : ℕ → Bool) → CanStandBehind t g joins → IsAcyclic g → HasOnlyAtomHeads g →
        IsModel t f → (h : ℕ → Bool) × IsModel (with_program t g joins) h × AgreeOn t f h }
    ensures one { (t : TheoryView) (g : Parts) (joins : List Lit) (f h : ℕ → Bool) → CanStandBehind t g joins → IsAcyclic g → HasOnlyAtomHeads g →
        IsModel (with_program t g joins) f → IsModel (with_program t g joins) h → AgreeOn t f h →
        AgreeOn (with_program t g joins) f h }
    ensures says { (t : TheoryView) (g : Parts) (joins : List Lit) (f : ℕ → Bool) → CanStandBehind t g joins → IsAcyclic g → HasOnlyAtomHeads g →
        IsModel (with_program t g joins) f → (x : ℕ → Bool) → IsAnswerSetWith g (facts_of g joins f) x →
        (a : ℕ) → x a ≡ cut (length t.variables) g f a }
{}

/// An acyclic program whose rules are no choices and no constraints has exactly one answer set with facts among its atoms.
///
/// * `some`: it has one.
/// * `one`: it has no other.
pub fn acyclic_programs_have_one_answer_set()
    ensures some { (g : Parts) (facts : ℕ → Bool) → IsInRange g → IsAcyclic g → HasOnlyAtomHeads g →
        ((a : ℕ) → IsTrue (facts a) → IsNumberOf (length g.atoms) a) → (x : ℕ → Bool) × IsAnswerSetWith g facts x }
    ensures one { (g : Parts) (facts x y : ℕ → Bool) → IsAcyclic g → HasOnlyAtomHeads g →
        ((a : ℕ) → IsTrue (facts a) → IsNumberOf (length g.atoms) a) → IsAnswerSetWith g facts x → IsAnswerSetWith g facts y → x ≡ y }
{}

/// Behind a program's own theory a program can stand, and behind that another one.
///
/// * `base`: a program's own theory begins with itself, and names its own variables alone.
/// * `behind`: so does a theory with a program behind it.
pub fn programs_can_stand_behind()
    ensures base { (g : Parts) → IsInRange g → HasBase (base_theory g) × IsWhole (base_theory g) }
    ensures behind { (t : TheoryView) (g : Parts) (joins : List Lit) → CanStandBehind t g joins →
        HasBase (with_program t g joins) × IsWhole (with_program t g joins) }
{}
