// The law of a program's own theory.
ghost use Rattle.std.specs.Prelude.{◌≡◌, ℕ, Bool};
ghost use Rattle.ground_form.specs.AnswerSets.{IsAnswerSet};
ghost use Rattle.ground_form.specs.Programs.{Parts};
ghost use Rattle.ground_form.specs.Ranges.{IsInRange};
ghost use Rattle.theory_build.specs.Completion.{base_theory};
ghost use Rattle.theory_form.specs.Theories.{IsSearch};
ghost use Rattle.theory_law.specs.Cuts.{AgreeOn, HasGuard, cut};
ghost use Rattle.theory_model.specs.Models.{IsModel};

/// The models of a program's own theory, cut to its atoms, are exactly its answer sets, and each answer set extends to a
/// model in one way but for the search guard (Clark 1978; Lin and Zhao 2004; Gelfond and Lifschitz 1988).
///
/// * `sound`: the atoms of a model are an answer set.
/// * `complete`: each answer set is the atoms of a model, with either value of the search guard.
/// * `one`: models that agree on the atoms and on the search guard agree on every variable.
pub fn models_are_answer_sets()
    ensures sound { (g : Parts) (f : ℕ → Bool) → IsInRange g → IsModel (base_theory g) f → IsAnswerSet g (cut 0 g f) }
    ensures complete { (g : Parts) (x : ℕ → Bool) (guard : Bool) → IsInRange g → IsAnswerSet g x →
        (f : ℕ → Bool) × IsModel (base_theory g) f × ((a : ℕ) → cut 0 g f a ≡ x a) × HasGuard (base_theory g) f guard }
    ensures one { (g : Parts) (f h : ℕ → Bool) → IsInRange g → IsModel (base_theory g) f → IsModel (base_theory g) h →
        ((a : ℕ) → cut 0 g f a ≡ cut 0 g h a) → ((v : ℕ) → IsSearch (base_theory g) v → f v ≡ h v) →
        AgreeOn (base_theory g) f h }
{}
