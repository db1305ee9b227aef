// The set of a model.
ghost use Rattle.std.specs.Prelude.{◌≡◌, ◌-◌, ℕ, length, slice_index_or, IfOk};
ghost use Rattle.ground_form.specs.Programs.{Parts};
ghost use Rattle.ground_form.specs.Ranges.{IsNumberOf};
ghost use Rattle.ground_form.specs.Sets.{IsAscending, has};
ghost use Rattle.theory_form.specs.declared.rows.VarKind.{VarKind as Kind};
ghost use Rattle.theory_build.specs.Completion.{base_atoms, is_atom};
ghost use Rattle.theory_law.specs.Cuts.{cut};
ghost use Rattle.theory_law.specs.Standing.{StandsOn};
ghost use Rattle.search_law.specs.Closed.{truths};
ghost use Rattle.asp_solver.specs.Founds.{true_among};

use ground_form::{AtomId, AtomSet};
use std::alloc::{AllocError, Global};
use theory_form::{Assignment, Theory, Var};

// Whether a variable is an atom.
fn is_atom_var(t: &Theory, v: Var) -> bool
    requires { IsNumberOf (length t.now.variables) v.0 }
    ensures { (d : Kind) → result ≡ is_atom (slice_index_or t.now.variables (v.0 - 1) d) }
{
    t.block_of(v).is_some()
}

// Whether a variable is true. One without a value is not.
fn is_on(a: &Assignment, v: Var) -> bool
    ensures { result ≡ truths a.now v.0 }
{
    match a.value(v) {
        Some(value) => value,
        None => false,
    }
}

// The atoms of the base that are true, in ascending order: the theory's variables begin with the atoms of the base.
fn true_atoms(alloc: Global, t: &Theory, a: &Assignment) -> Result<Vec<AtomId>, AllocError>
    ensures ascending { IfOk result (λ ids. IsAscending ids.items) }
    ensures atoms { IfOk result (λ ids. (n : ℕ) → has ids.items n ≡ true_among (base_atoms t.now) (truths a.now) n) }
{
    let mut ids = Vec::new(alloc);
    for number in 0..t.var_count() {
        let v = Var(number + 1);
        if !is_atom_var(t, v) {
            return Ok(ids);
        }
        if is_on(a, v) {
            ids.push(AtomId(v.0))?;
        }
    }
    Ok(ids)
}

/// The atoms of the base that are true under the assignment. Only memory can run out.
pub(crate) fn atoms_of(alloc: Global, t: &Theory, a: &Assignment) -> Result<AtomSet, AllocError>
    ensures ascending { IfOk result IsAscending }
    ensures atoms { IfOk result (λ x. (g : Parts) → StandsOn g t.now → (n : ℕ) → has x n ≡ cut 0 g (truths a.now) n) }
{
    let ids = true_atoms(alloc, t, a)?;
    Ok(AtomSet::new(ids))
}
