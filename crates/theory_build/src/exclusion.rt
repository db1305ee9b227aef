// The clause that excludes a set.
ghost use Rattle.std.specs.Prelude.{◌≡◌, ◌+◌, ◌++◌, [], ◌∷◌, IfOk, OnErr, OnOk, Some, length, map};
ghost use Rattle.std.specs.List.{range_with_len};
ghost use Rattle.theory_build.specs.Completion.{HasBase};
ghost use Rattle.theory_build.specs.Exclusion.{AreBaseAtoms, differs_at, exclusion};

use crate::clauses::clause;
use crate::theories::base_atoms;
use ground_form::{AtomId, AtomSet};
use std::alloc::{AllocError, Global};
use theory_form::{ClauseId, Lit, Theory, Var};

/// Adds the clause that excludes a set of atoms of the base where the search guard is true: the guard is false, or an atom
/// of the set is, or one that is not in the set is true. It answers the clause's number. Only memory can run out, and then
/// nothing changes.
pub fn exclude(alloc: Global, t: &mut Theory, set: &AtomSet) -> Result<ClauseId, AllocError>
    requires base { HasBase t.old }
    requires atoms { AreBaseAtoms t.old set.now }
    ensures ok { OnOk result (t.new ≡ record t.old { clauses = t.old.clauses ++ Some (exclusion t.old set.now) ∷ [] }) }
    ensures number { IfOk result (λ id. id.0 ≡ length t.old.clauses + 1) }
    ensures err { OnErr result (t.new ≡ t.old) }
    ensures base { HasBase t.new }
{
    let mut lits = vec![in alloc; t.search_guard().opposite()]?;
    let atoms = base_atoms(t);
    push_differences(&mut lits, set, atoms)?;
    let id = t.add_clause(clause(lits)?)?;
    Ok(id)
}

// Appends, for each of so many atoms, that it is not as it is in the set.
fn push_differences(lits: &mut Vec<Lit>, set: &AtomSet, atoms: u64) -> Result<(), AllocError>
    ensures { OnOk result (lits.new.items ≡ lits.old.items ++ map (differs_at set.now) (range_with_len 1 atoms)) }
{
    for place in 0..atoms {
        let atom = place + 1;
        lits.push(Lit {
            var: Var(atom),
            yes: !set.contains(AtomId(atom)),
        })?;
    }
    Ok(())
}
