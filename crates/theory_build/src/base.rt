// The base theory.
ghost use Rattle.std.specs.Prelude.{◌≡◌, IfOk};
ghost use Rattle.theory_build.specs.Completion.{HasBase, base_theory};

use crate::entries::Entry;
use crate::frames::Frame;
use crate::plans::plan_of;
use crate::theories::{add_clauses, add_entries, add_entry};
use ground_form::GroundProgram;
use std::alloc::{AllocError, Global};
use theory_form::Theory;

/// The base theory of a ground program: its completion (Clark 1978) with a variable for each body and for what its
/// aggregates need, and a search guard.
///
/// The variables are the atoms, in their order; one that is true; those of the groups; one for each distinct body of a
/// rule; and the search guard. The clauses come variable by variable, and then the constraints. No input is joined to
/// anything, so none is a fact. Only memory can run out.
pub fn complete(alloc: Global, g: &GroundProgram) -> Result<Theory, AllocError>
    ensures theory { IfOk result (λ t. t ≡ base_theory g.now) }
    ensures base { IfOk result HasBase }
{
    let p = Frame::base(alloc, g.atoms().len() as u64)?;
    let truth = Entry::truth(alloc, p.truth)?;
    let (entries, constraints) = plan_of(alloc, &p, g)?.into_entries(Some(truth))?;
    let mut t = Theory::new(alloc);
    t.add_block()?;
    add_entries(&mut t, entries)?;
    add_entry(&mut t, Entry::search(alloc))?;
    add_clauses(&mut t, constraints)?;
    Ok(t)
}
