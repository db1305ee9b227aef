// A program behind a theory.
ghost use Rattle.std.specs.Prelude.{◌≡◌, ◌+◌, All, IfOk, OnErr, OnOk, length};
ghost use Rattle.ground_form.specs.Ranges.{IsNumberOf};
ghost use Rattle.theory_build.specs.Completion.{HasBase, with_program};
ghost use Rattle.theory_form.specs.Theories.{Extends};
ghost use Rattle.theory_form.specs.declared.literals.Lit.{Lit as Literal};

use crate::frames::Frame;
use crate::numbers::sum;
use crate::plans::plan_of;
use crate::theories::{add_clauses, add_entries};
use ground_form::GroundProgram;
use std::alloc::{AllocError, Global};
use theory_form::{ClauseId, Lit, Theory, Var};

/// Where an appended program stands: `first` is the variable of its first atom, and its clauses have the numbers from
/// `clauses_from` on.
#[derive(Clone, Copy, Debug, PartialEq, Eq)]
pub struct Base {
    pub first: Var,
    pub clauses_from: ClauseId,
}

/// Appends a program to a theory that begins with a base theory, and joins a literal of the theory to each input: the input
/// is true where that literal is, or where a body of one of its rules is.
///
/// Its variables are the atoms, in their order; those of the groups; and one for each distinct body of a rule. What is true
/// in it is the base's variable, and it has no search guard. Only memory can run out, and then nothing changes.
pub fn append(
    alloc: Global,
    t: &mut Theory,
    g: &GroundProgram,
    joins: &[Lit],
) -> Result<Base, AllocError>
    requires base { HasBase t.old }
    requires joined { length joins.now ≡ length g.now.inputs }
    requires known { All (λ (l : Literal). IsNumberOf (length t.old.variables) l.var.0) joins.now }
    ensures ok { OnOk result (t.new ≡ with_program t.old g.now joins.now) }
    ensures first { IfOk result (λ base. base.first.0 ≡ length t.old.variables + 1) }
    ensures clauses_from { IfOk result (λ base. base.clauses_from.0 ≡ length t.old.clauses + 1) }
    ensures err { OnErr result (t.new ≡ t.old) }
    ensures base { HasBase t.new }
{
    let base = Base {
        first: Var(sum(t.var_count(), 1)?),
        clauses_from: t.next_id(),
    };
    let mark = t.mark();
    let added = add_program(alloc, t, g, joins);
    match added {
        Ok(()) => Ok(base),
        Err(refusal) => {
            t.cut(&mark);
            Err(refusal)
        }
    }
}

// Adds the variables and clauses of a program. Where memory runs out, some of them may stay.
fn add_program(
    alloc: Global,
    t: &mut Theory,
    g: &GroundProgram,
    joins: &[Lit],
) -> Result<(), AllocError>
    ensures ok { OnOk result (t.new ≡ with_program t.old g.now joins.now) }
    ensures grown { Extends t.old t.new × (t.new.reserved ≡ t.old.reserved) }
{
    let p = Frame::behind(alloc, t, g.atoms().len() as u64, joins)?;
    let (entries, constraints) = plan_of(alloc, &p, g)?.into_entries(None)?;
    t.add_block()?;
    add_entries(t, entries)?;
    add_clauses(t, constraints)?;
    Ok(())
}
