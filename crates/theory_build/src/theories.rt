// Variables and clauses, added to a theory.
ghost use Rattle.std.specs.Prelude.{◌≡◌, ◌-◌, ◌++◌, [], ◌∷◌, OnOk, length, map, slice_index_or, Some};
ghost use Rattle.ground_form.specs.Ranges.{IsNumberOf};
ghost use Rattle.theory_build.specs.Completion.{base_atoms as base_atoms_of, is_atom, with_entries};
ghost use Rattle.theory_build.specs.Growth.{AreAddable, IsGrown};
ghost use Rattle.theory_form.specs.Theories.{CanAdd, IsTheory};
ghost use Rattle.theory_form.specs.declared.rows.VarKind.{VarKind as Kind};

use crate::entries::Entry;
use std::alloc::AllocError;
use theory_form::{Clause, Theory, Var};

// Adds clauses.
pub(crate) fn add_clauses(t: &mut Theory, clauses: Vec<Clause>) -> Result<(), AllocError>
    ensures ok { OnOk result (t.new ≡ record t.old { clauses = t.old.clauses ++ map (λ c. Some c) clauses.items }) }
    ensures grown { IsGrown t.old t.new }
{
    for clause in clauses {
        t.add_clause(clause)?;
    }
    Ok(())
}

// Adds a variable with its clauses.
pub(crate) fn add_entry(t: &mut Theory, entry: Entry) -> Result<(), AllocError>
    requires { CanAdd t.old entry.kind }
    ensures ok { OnOk result (t.new ≡ with_entries t.old (entry ∷ []) []) }
    ensures grown { IsGrown t.old t.new }
{
    let Entry { kind, clauses } = entry;
    t.add_var(kind)?;
    add_clauses(t, clauses.into_vec())
}

// Adds variables, none of which is a search guard, with their clauses.
pub(crate) fn add_entries(t: &mut Theory, entries: Vec<Entry>) -> Result<(), AllocError>
    requires { AreAddable t.old.blocks entries.items }
    ensures ok { OnOk result (t.new ≡ with_entries t.old entries.items []) }
    ensures grown { IsGrown t.old t.new }
{
    for entry in entries {
        add_entry(t, entry)?;
    }
    Ok(())
}

// Whether a variable is an atom.
fn is_atom_var(t: &Theory, v: Var) -> bool
    requires { IsNumberOf (length t.now.variables) v.0 }
    ensures { (d : Kind) → result ≡ is_atom (slice_index_or t.now.variables (v.0 - 1) d) }
{
    t.block_of(v).is_some()
}

// How many atoms the base of a theory has: its variables begin with them.
pub(crate) fn base_atoms(t: &Theory) -> u64
    ensures count { result ≡ base_atoms_of t.now }
    ensures theory { IsTheory t.now }
{
    let mut atoms = 0;
    while atoms < t.var_count() {
        if !is_atom_var(t, Var(atoms + 1)) {
            return atoms;
        }
        atoms += 1;
    }
    atoms
}
