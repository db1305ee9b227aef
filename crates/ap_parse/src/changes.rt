// Which `#program` statements change the part.
ghost use Rattle.std.specs.Prelude.{◌≡◌, IfOk, IsTrue, reverse};
ghost use Rattle.ap_parse.specs.Changes.{changing, part_after, repeats, same_part};

use ap_syntax::{PartKind, Statement, Statements};
use std::alloc::{AllocError, Global};

// Whether two parts are one.
fn same_part(one: &PartKind, other: &PartKind) -> bool
    ensures { result ≡ same_part one.now other.now }
{
    match (one, other) {
        (PartKind::Base, PartKind::Base) => true,
        (PartKind::Kind(x), PartKind::Kind(y)) => x == y,
        _ => false,
    }
}

// Whether a statement opens the part that is in force.
fn repeats(part: &PartKind, statement: &Statement) -> bool
    ensures { result ≡ repeats part.now statement.now }
{
    match statement {
        Statement::Part { part: new, .. } => same_part(part, new),
        _ => false,
    }
}

// The part in force behind a statement, where it is.
fn part_behind<'a>(part: &'a PartKind, statement: &'a Statement) -> &'a PartKind
    ensures { result.now ≡ part_after part.now statement.now }
{
    match statement {
        Statement::Part { part: new, .. } => new,
        _ => part,
    }
}

// Whether none of the statements opens the part that is in force, which is at first this one. Then all of them stay.
fn all_change(first: &PartKind, statements: &[Statement]) -> bool
    ensures { IsTrue result → changing first.now statements.now ≡ statements.now }
{
    let mut part = first;
    for statement in statements {
        if repeats(part, statement) {
            return false;
        }
        part = part_behind(part, statement);
    }
    true
}

// The part in force behind a statement.
fn part_after(alloc: Global, part: PartKind, statement: &Statement) -> Result<PartKind, AllocError>
    ensures { IfOk result (λ after. after ≡ part_after part statement.now) }
{
    match statement {
        Statement::Part { part: new, .. } => copy_part(alloc, new),
        _ => Ok(part),
    }
}

// An equal part.
fn copy_part(alloc: Global, part: &PartKind) -> Result<PartKind, AllocError>
    ensures { IfOk result (λ copy. copy ≡ part.now) }
{
    match part {
        PartKind::Base => Ok(PartKind::Base),
        PartKind::Kind(name) => Ok(PartKind::Kind(name.copy(alloc)?)),
    }
}

// The statements from the last to the first.
fn reversed(alloc: Global, mut statements: Statements) -> Result<Statements, AllocError>
    ensures { IfOk result (λ all. all ≡ reverse statements) }
{
    let mut all = Vec::with_capacity(alloc, statements.as_slice().len())?;
    'statements: while let Some(last) = statements.pop() {
        all.push(last)?;
    }
    Ok(Statements::fitted(all))
}

/// The statements without each `#program` that opens the part already in force, which is at first this one. It fails for want
/// of memory alone.
pub fn changing(
    alloc: Global,
    first: PartKind,
    statements: Statements,
) -> Result<Statements, AllocError>
    ensures { IfOk result (λ all. all ≡ changing first statements) }
{
    if all_change(&first, statements.as_slice()) {
        return Ok(statements);
    }
    let mut part = first;
    let mut rest = reversed(alloc, statements)?;
    let mut kept = Vec::with_capacity(alloc, rest.as_slice().len())?;
    'statements: while let Some(next) = rest.pop() {
        if !repeats(&part, &next) {
            part = part_after(alloc, part, &next)?;
            kept.push(next)?;
        }
    }
    Ok(Statements::fitted(kept))
}
