// The names of a program.
ghost use Rattle.std.specs.Prelude.{◌≡◌, None, length};
ghost use Rattle.std.specs.Option.{option_map};
ghost use Rattle.pref_bind.specs.Answers.{IsBindAnswer};
ghost use Rattle.pref_bind.specs.Causes.{first_misnamed as first_of_all};
ghost use Rattle.program_form.specs.Programs.{preferences};
ghost use Rattle.pref_bind.specs.Stacks.{number_in, optimised_name};
ghost use Rattle.pref_bind.specs.Tables.{IsTableOf};

use crate::cycles::cyclic_names;
use crate::fault::TypeFault;
use crate::graph::{count_preferences, graph_of, number_or};
use crate::naming::first_misnamed;
use crate::stack::Stack;
use crate::table::{Table, table_of};
use ap_syntax::{Program, Statement};
use std::alloc::Global;

/// The number of the statement that the first `#optimize` names.
fn optimised_in(table: &Table, count: usize, statements: &[Statement]) -> Option<usize>
    requires table { IsTableOf (preferences statements.now) table.now }
    requires count { count ≡ length (preferences statements.now) }
    ensures { result ≡ option_map (number_in (preferences statements.now)) (optimised_name statements.now) }
{
    for statement in statements {
        if let Statement::Optimize { name, .. } = statement {
            return Some(number_or(table, count, name));
        }
    }
    None
}

/// The bindings of statements whose names are bound, unless some reach themselves.
fn stack_of(alloc: Global, statements: &[Statement]) -> Result<Stack, TypeFault>
    requires { first_of_all statements.now ≡ None }
    ensures { IsBindAnswer statements.now result }
{
    let table = table_of(alloc, statements)?;
    let count = count_preferences(statements);
    let named = graph_of(alloc, &table, count, statements)?;
    let list = cyclic_names(alloc, named.as_slice(), statements)?;
    if !list.is_empty() {
        return Err(TypeFault::NamingCycle { list });
    }
    let optimised = optimised_in(&table, count, statements);
    Ok(Stack { named, optimised })
}

fn bind_all(alloc: Global, statements: &[Statement]) -> Result<Stack, TypeFault>
    ensures { IsBindAnswer statements.now result }
{
    match first_misnamed(alloc, statements)? {
        Some(found) => Err(TypeFault::Misnamed {
            file: found.file,
            at: found.at,
            cause: found.cause,
        }),
        None => stack_of(alloc, statements),
    }
}

/// Binds the names of a program: of preference statements, of their types, and of constants.
///
/// `Misnamed` comes exactly where a statement has a wrong name, for the first one in the texts; at one statement the first
/// cause in the order of `Cause` counts. A preference statement names another by `**name` in a rank or behind `||`. Its type is
/// built in (`BuiltIn`), or a `#program preference(type).` opens a part of it, and none does for a type that is built in.
/// Where all names are bound, `NamingCycle` comes exactly where a statement reaches itself by naming, with all that do, in
/// the order of the texts. `Memory` comes where memory ran out.
pub fn bind(alloc: Global, program: &Program) -> Result<Stack, TypeFault>
    ensures { IsBindAnswer program.now.statements result }
{
    bind_all(alloc, program.statements.as_slice())
}
