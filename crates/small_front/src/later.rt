// The first statement that is not of the small language.
ghost use Rattle.std.specs.Prelude.{◌≡◌};
ghost use Rattle.small_front.specs.Later.{declares, first_later, is_declared, is_optimize, is_preference, later_place, place_if};

use crate::place::Place;
use crate::preferences::is_small_preference;
use crate::rules::is_small_rule;
use ap_syntax::{PartKind, Statement, Text};

fn declares(statement: &Statement, name: &Text) -> bool
    ensures { result ≡ declares name.now statement.now }
{
    match statement {
        Statement::Preference(preference) => preference.name == *name,
        _ => false,
    }
}

fn is_declared(statements: &[Statement], name: &Text) -> bool
    ensures { result ≡ is_declared statements.now name.now }
{
    statements.iter().any(|statement| declares(statement, name))
}

fn is_preference(statement: &Statement) -> bool
    ensures { result ≡ is_preference statement.now }
{
    matches!(statement, Statement::Preference(_))
}

fn is_optimize(statement: &Statement) -> bool
    ensures { result ≡ is_optimize statement.now }
{
    matches!(statement, Statement::Optimize { .. })
}

fn place_if(is_later: bool, file: u32, at: u32) -> Option<Place>
    ensures { result ≡ place_if is_later file at }
{
    if is_later {
        Some(Place { file, at })
    } else {
        None
    }
}

/// The place of a statement that is of a later form; `preferred` and `optimised` say whether a preference statement
/// and an `#optimize` stand before it.
fn later_place(
    all: &[Statement],
    preferred: bool,
    optimised: bool,
    statement: &Statement,
) -> Option<Place>
    ensures { result ≡ later_place all.now preferred optimised statement.now }
{
    match statement {
        Statement::Rule(rule) => place_if(!is_small_rule(rule), rule.file, rule.at),
        Statement::Preference(preference) => {
            let is_later = preferred || !is_small_preference(preference);
            place_if(is_later, preference.file, preference.at)
        }
        Statement::Optimize { file, at, name } => {
            let is_later = optimised || !is_declared(all, name);
            place_if(is_later, *file, *at)
        }
        Statement::Part {
            file,
            at,
            part: PartKind::Kind(_),
        } => place_if(true, *file, *at),
        _ => None,
    }
}

/// The place of the first statement that is of a later form.
pub fn first_later(statements: &[Statement]) -> Option<Place>
    ensures { result ≡ first_later statements.now }
{
    let mut preferred = false;
    let mut optimised = false;
    for statement in statements {
        let found = later_place(statements, preferred, optimised, statement);
        if found.is_some() {
            return found;
        }
        preferred = preferred || is_preference(statement);
        optimised = optimised || is_optimize(statement);
    }
    None
}
