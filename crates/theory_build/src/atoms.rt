// The variables of the atoms, and the constraints.
ghost use Rattle.std.specs.Prelude.{◌≡◌, ◌++◌, [], ◌∷◌, IfOk, length, map};
ghost use Rattle.theory_build.specs.Ascending as order;
ghost use Rattle.theory_build.specs.Atoms as spec;
ghost use Rattle.theory_build.specs.Heads.{HasHeads, entry_by};
ghost use Rattle.theory_form.specs.Literals.{lit_cmp, opposite};

use crate::clauses::{ascending, support_clauses};
use crate::entries::Entry;
use crate::frames::Frame;
use crate::heads::{Heads, Supports};
use crate::numbers::sum;
use ground_form::GroundProgram;
use sqlite_items::Items;
use std::alloc::{AllocError, Global};
use theory_form::{Clause, Lit, VarKind};

// The literals that are joined to an atom, and then these bodies in ascending order, each once.
fn supports_in_order(alloc: Global, joined: &[Lit], bodies: &[Lit]) -> Result<Vec<Lit>, AllocError>
    ensures { IfOk result (λ all. all.items ≡ joined.now ++ order.ascending lit_cmp bodies.now) }
{
    let bodies = ascending(Vec::from_slice(alloc, bodies)?)?;
    let mut all = Vec::from_slice(alloc, joined)?;
    all.extend_from_slice(bodies.as_slice())?;
    Ok(all)
}

// The variable of an atom by its number and its supports.
fn atom_entry(alloc: Global, p: &Frame, a: u64, supports: &Supports) -> Result<Entry, AllocError>
    ensures { IfOk result (λ entry. entry ≡ entry_by p.now a supports.now) }
{
    let v = sum(p.before, a)?;
    let joined = supports.joined.as_slice();
    let forcing = supports_in_order(alloc, joined, supports.forcing.as_slice())?;
    let allowing = supports_in_order(alloc, joined, supports.allowing.as_slice())?;
    let clauses = support_clauses(alloc, v, forcing.as_slice(), allowing.as_slice())?;
    Ok(Entry {
        kind: VarKind::Atom {
            block: p.block,
            supports: Items::from_vec(allowing),
        },
        clauses,
    })
}

// The variables of the atoms.
pub(crate) fn atom_entries(
    alloc: Global,
    p: &Frame,
    g: &GroundProgram,
    heads: &Heads,
) -> Result<Vec<Entry>, AllocError>
    requires { HasHeads p.now g.now g.now.rules heads.now }
    ensures { IfOk result (λ entries. entries.items ≡ spec.atom_entries p.now g.now) }
{
    let mut entries = Vec::new(alloc);
    for (place, supports) in heads.atoms.iter().enumerate() {
        let entry = atom_entry(alloc, p, place as u64 + 1, supports)?;
        entries.push(entry)?;
    }
    Ok(entries)
}

// The clauses of the constraints with these bodies.
pub(crate) fn constraint_clauses(alloc: Global, bodies: &[Lit]) -> Result<Vec<Clause>, AllocError>
    ensures { IfOk result (λ clauses. clauses.items ≡ map (λ b. opposite b ∷ []) (order.ascending lit_cmp bodies.now)) }
{
    let bodies = ascending(Vec::from_slice(alloc, bodies)?)?;
    let mut clauses = Vec::new(alloc);
    for body in bodies.as_slice() {
        let clause = Clause::new(vec![in alloc; body.opposite()]?);
        clauses.push(clause)?;
    }
    Ok(clauses)
}
