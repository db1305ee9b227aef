// External supports.
ghost use Rattle.std.specs.Prelude.{◌≡◌, ◌↔◌, ◌++◌, not, All, Contains, IfOk, OnOk, filter};
ghost use Rattle.std.specs.List.{flat_map};
ghost use Rattle.theory_form.specs.declared.literals.Lit.{Lit as Literal};
ghost use Rattle.theory_form.specs.declared.literals.Var.{Var as Variable};
ghost use Rattle.theory_form.specs.Literals.{IsAscending};
ghost use Rattle.theory_model.specs.Loops.{IsExternal, is_internal};
ghost use Rattle.loop_nogoods.specs.Bodies as spec;
ghost use Rattle.loop_nogoods.specs.Bodies.{marked_set};
ghost use Rattle.loop_nogoods.specs.Marks.{AreClear, IsVariable};
ghost use Rattle.loop_nogoods.specs.Sets.{has};

use crate::marking::write_all;
use crate::supports::{is_internal, support_lits};
use std::alloc::{AllocError, Global};
use theory_form::{Lit, Marks, Theory, Var};

// Puts those of the supports that do not rest on the marked set behind `found`.
fn add_external(
    t: &Theory,
    marks: &Marks,
    supports: &[Lit],
    found: &mut Vec<Lit>,
) -> Result<(), AllocError>
    ensures { OnOk result (found.new.items ≡ found.old.items ++ filter (λ s. not (is_internal t.now (marked_set t.now marks.now) s)) supports.now) }
{
    for support in supports {
        if !is_internal(t, marks, *support) {
            found.push(*support)?;
        }
    }
    Ok(())
}

// The supports of the members of `u` that do not rest on the marked set, in the order in which they stand.
fn gather(alloc: Global, t: &Theory, marks: &Marks, u: &[Var]) -> Result<Vec<Lit>, AllocError>
    ensures { IfOk result (λ found. found.items ≡ flat_map (λ (v : Variable). filter (λ s. not (is_internal t.now (marked_set t.now marks.now) s)) (spec.support_lits t.now v.0)) u.now) }
{
    let mut found = Vec::new(alloc);
    for v in u {
        add_external(t, marks, support_lits(t, *v), &mut found)?;
    }
    Ok(found)
}

// The same literals, ascending, each once.
fn sorted(lits: Vec<Lit>) -> Result<Vec<Lit>, AllocError>
    ensures ascending { IfOk result (λ list. IsAscending list.items) }
    ensures same { IfOk result (λ list. (l : Literal) → Contains list.items l ↔ Contains lits.items l) }
{
    let mut lits = lits;
    lits.sort()?;
    lits.dedup();
    Ok(lits)
}

/// The external supports of the set `u`, ascending, each once: the supports of its members that are not the positive
/// literal of a body with a positive literal over a member (Lin and Zhao, "ASSAT: Computing Answer Sets of a Logic
/// Program by SAT Solvers", 2004). Every variable of the theory has a clear bit in `marks`, which are left as they were,
/// whatever the answer. The members of `u` are variables of the theory. The one error is want of memory.
pub fn external(
    alloc: Global,
    t: &Theory,
    u: &[Var],
    marks: &mut Marks,
) -> Result<Vec<Lit>, AllocError>
    requires clear { AreClear t.now marks.old }
    requires variables { All (λ (v : Variable). IsVariable t.now v.0) u.now }
    ensures ascending { IfOk result (λ lits. IsAscending lits.items) }
    ensures supports { IfOk result (λ lits. (l : Literal) → Contains lits.items l ↔ IsExternal t.now (has u.now) l) }
    ensures marks { marks.new ≡ marks.old }
{
    write_all(u, true, marks);
    let found = gather(alloc, t, marks, u);
    write_all(u, false, marks);
    let lits = sorted(found?)?;
    Ok(lits)
}
