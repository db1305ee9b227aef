// The law of excluded sets.
ghost use Rattle.std.specs.Prelude.{ℕ, Bool, List, IsTrue, IsFalse, length};
ghost use Rattle.ground_form.specs.declared.atoms.AtomId.{AtomId as Atom};
ghost use Rattle.ground_form.specs.Programs.{Parts};
ghost use Rattle.theory_build.specs.Exclusion.{search_var};
ghost use Rattle.theory_form.specs.Theories.{Extends, TheoryView};
ghost use Rattle.theory_law.specs.Excluding.{is_as, with_exclusion};
ghost use Rattle.theory_law.specs.Standing.{StandsOn};
ghost use Rattle.theory_model.specs.Models.{IsModel};

/// What it means that a set of atoms of the base is excluded from the search.
///
/// * `guards`: where the search guard is true in a model, the atoms of the base are not those of the set.
/// * `extends`: each other model of the theory is one of the whole.
/// * `stands`: the whole is a theory that a search can work on.
/// * `grows`: it begins with the theory.
pub fn exclusions_mean()
    ensures guards { (g : Parts) (t : TheoryView) (set : List Atom) (f : ℕ → Bool) → StandsOn g t →
        IsModel (with_exclusion t set) f → IsTrue (f (search_var t)) → IsFalse (is_as (length g.atoms) f set) }
    ensures extends { (g : Parts) (t : TheoryView) (set : List Atom) (f : ℕ → Bool) → StandsOn g t →
        IsModel t f → (IsTrue (f (search_var t)) → IsFalse (is_as (length g.atoms) f set)) → IsModel (with_exclusion t set) f }
    ensures stands { (g : Parts) (t : TheoryView) (set : List Atom) → StandsOn g t → StandsOn g (with_exclusion t set) }
    ensures grows { (g : Parts) (t : TheoryView) (set : List Atom) → StandsOn g t → Extends t (with_exclusion t set) }
{}
