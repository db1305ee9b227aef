// The static conditions of a program.
ghost use Rattle.std.specs.Prelude.{List, IfOk, IfErr};
ghost use Rattle.static_checks.specs.Conditions.{IsChecked, StaticCause};
ghost use Rattle.static_checks.specs.Judgements.{IsJudgement};
ghost use Rattle.static_checks.specs.Told.{IsTold};
ghost use Rattle.static_checks.specs.Programs.{Judged, programs_of};

use crate::checked::Checked;
use crate::fault::StaticFault;
use crate::judging::{Judgement, judge_parts};
use ap_safety::DomainFault;
use ap_syntax::Program;
use pred_graph::Safe;
use pref_bind::bind;
use pref_shapes::shapes;
use program_parts::{Parts, take_apart};
use sqlite_items::Items;
use std::alloc::Global;

/// What is known of each program, or the first fault.
fn told(judgement: Judgement) -> Result<Items<Safe>, StaticFault>
    ensures { (js : List Judged) → IsJudgement js judgement → IsTold js result }
{
    let Judgement {
        fault,
        domain,
        safes,
    } = judgement;
    if let Some(fault) = fault {
        return Err(StaticFault::Safety(fault));
    }
    if let Some(found) = domain {
        return Err(StaticFault::Domain(DomainFault::NotDomain {
            file: found.file,
            at: found.at,
        }));
    }
    Ok(safes)
}

/// Judges the base and the program of each type.
fn judge(alloc: Global, parts: &Parts) -> Result<Items<Safe>, StaticFault>
    ensures { IsTold (programs_of parts.now) result }
{
    let judgement = judge_parts(alloc, parts)?;
    told(judgement)
}

/// Checks the static conditions of a program, and takes it apart.
///
/// The faults come in this order: `Naming`, `Shape`, `Safety`, `Domain`, each where the conditions before its own are met, and
/// each for the first in the texts (`bind`, `shapes`, `check`, `domain`). The rules of the base are judged with the elements of all
/// preference statements, and those of each type by themselves, also where no statement is of the type. Of all their faults of
/// `Safety` the first is told: an unbound variable before a recursion through an aggregate, and that before any other, and of
/// one kind the first in the texts. Want of memory may come at any time.
pub fn check_program(alloc: Global, program: Program) -> Result<Checked, StaticFault>
    ensures checked { IfOk result (IsChecked program.statements) }
    ensures refused { IfErr result (StaticCause program.statements) }
{
    let stack = bind(alloc, &program)?;
    shapes(alloc, &program)?;
    let parts = take_apart(alloc, program)?;
    match judge(alloc, &parts) {
        Ok(safes) => Ok(Checked {
            stack,
            parts,
            safes,
        }),
        Err(fault) => Err(fault),
    }
}
