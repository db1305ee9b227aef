// The small program of some statements.
ghost use Rattle.std.specs.Prelude.{◌≡◌, is_some, length, IfOk};
ghost use Rattle.std.specs.List.{filter_map};
ghost use Rattle.small_front.specs.Forms.{small_of, small_statement_of};

use crate::preferences::{is_small_preference, small_preference};
use crate::rules::{is_small_rule, small_rule};
use ap_syntax::{Statement, Statements, small};
use sqlite_items::Items;
use std::alloc::{AllocError, Global};

/// What stands for a statement in the small program, if something does.
fn small_statement(
    alloc: Global,
    statement: Statement,
) -> Result<Option<small::Statement>, AllocError>
    ensures { IfOk result (λ found. found ≡ small_statement_of statement) }
{
    match statement {
        Statement::Rule(rule) => Ok(small_rule(alloc, rule)?.map(small::Statement::Rule)),
        Statement::Preference(preference) => {
            Ok(small_preference(alloc, preference)?.map(small::Statement::Preference))
        }
        Statement::Optimize { name, .. } => Ok(Some(small::Statement::Optimize(name))),
        _ => Ok(None),
    }
}

/// Whether something stands for a statement in the small program.
fn is_small(statement: &Statement) -> bool
    ensures { result ≡ is_some (small_statement_of statement.now) }
{
    match statement {
        Statement::Rule(rule) => is_small_rule(rule),
        Statement::Preference(preference) => is_small_preference(preference),
        Statement::Optimize { .. } => true,
        _ => false,
    }
}

/// For how many statements something stands in the small program.
fn count_small(statements: &[Statement]) -> usize
    ensures { result ≡ length (filter_map small_statement_of statements.now) }
{
    let mut count = 0;
    for statement in statements {
        if is_small(statement) {
            count += 1;
        }
    }
    count
}

/// The small program of all statements. It takes their names and frees the rest as it goes.
pub fn small_program(
    alloc: Global,
    mut statements: Statements,
) -> Result<small::Program, AllocError>
    ensures { IfOk result (λ program. program ≡ small_of statements) }
{
    let mut small = Vec::with_capacity(alloc, count_small(statements.as_slice()))?;
    'statements: while let Some(last) = statements.pop() {
        match small_statement(alloc, last)? {
            Some(found) => small.push(found)?,
            None => {}
        }
    }
    small.reverse();
    Ok(small::Program {
        statements: Items::from_vec(small),
    })
}
