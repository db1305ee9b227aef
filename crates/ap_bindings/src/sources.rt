// The first rule or element with an unbound variable.
ghost use Rattle.std.specs.Prelude.{◌≡◌, ◌∷◌, [], map, flat_map, IfOk};
ghost use Rattle.ap_pieces.specs.Pieces.{rule_source, element_source, statement_sources, sources};
ghost use Rattle.ap_bindings.specs.Searches.{failing_of};
ghost use Rattle.ap_bindings.specs.Unsafe.{definite_by, IsFirstUnsafe};

use crate::search::{Failing, earlier};
use crate::unbound::first_unbound;
use ap_pieces::{piece_of, pieces_of};
use ap_syntax::{Element, Preference, Rule, Text};
use pred_graph::Safe;
use sqlite_items::Items;
use std::alloc::{AllocError, Global};

fn failing(file: u32, at: u32, variable: Option<Text>) -> Option<Failing<Text>>
    ensures { result ≡ failing_of file at variable }
{
    match variable {
        Some(what) => Some(Failing { file, at, what }),
        None => None,
    }
}

fn rule_fault(alloc: Global, safe: &Safe, rule: &Rule) -> Result<Option<Failing<Text>>, AllocError>
    ensures { IfOk result (IsFirstUnsafe (definite_by safe.now) (rule_source rule.now ∷ [])) }
{
    let pieces = pieces_of(alloc, rule)?;
    let variable = first_unbound(alloc, safe, pieces.as_slice())?;
    Ok(failing(rule.file, rule.at, variable))
}

fn element_fault(
    alloc: Global,
    safe: &Safe,
    file: u32,
    element: &Element,
) -> Result<Option<Failing<Text>>, AllocError>
    ensures { IfOk result (IsFirstUnsafe (definite_by safe.now) (element_source file element.now ∷ [])) }
{
    let mut pieces = Items::new(alloc);
    pieces.push(piece_of(alloc, element)?)?;
    let variable = first_unbound(alloc, safe, pieces.as_slice())?;
    Ok(failing(file, element.at, variable))
}

fn rules_fault(
    alloc: Global,
    safe: &Safe,
    rules: &[Rule],
) -> Result<Option<Failing<Text>>, AllocError>
    ensures { IfOk result (IsFirstUnsafe (definite_by safe.now) (map rule_source rules.now)) }
{
    let mut first = None;
    for rule in rules {
        let here = rule_fault(alloc, safe, rule)?;
        first = earlier(first, here);
    }
    Ok(first)
}

fn elements_fault(
    alloc: Global,
    safe: &Safe,
    file: u32,
    elements: &[Element],
) -> Result<Option<Failing<Text>>, AllocError>
    ensures { IfOk result (IsFirstUnsafe (definite_by safe.now) (map (element_source file) elements.now)) }
{
    let mut first = None;
    for element in elements {
        let here = element_fault(alloc, safe, file, element)?;
        first = earlier(first, here);
    }
    Ok(first)
}

fn statements_fault(
    alloc: Global,
    safe: &Safe,
    statements: &[Preference],
) -> Result<Option<Failing<Text>>, AllocError>
    ensures { IfOk result (IsFirstUnsafe (definite_by safe.now) (flat_map statement_sources statements.now)) }
{
    let mut first = None;
    for statement in statements {
        let here = elements_fault(alloc, safe, statement.file, statement.elements.as_slice())?;
        first = earlier(first, here);
    }
    Ok(first)
}

/// The first rule or element of a preference statement in the texts that has an unbound variable, with the first of those in its
/// text. `safe` tells which predicates are definite: an aggregate over these alone, which is not negated, binds a variable that
/// is its guard with `=`. It fails for want of memory; where an aggregate mentions an atom of 2^32 arguments or more, it answers
/// that too.
pub fn unsafe_in(
    alloc: Global,
    rules: &[Rule],
    statements: &[Preference],
    safe: &Safe,
) -> Result<Option<Failing<Text>>, AllocError>
    ensures { IfOk result (IsFirstUnsafe (definite_by safe.now) (sources rules.now statements.now)) }
{
    let first = rules_fault(alloc, safe, rules)?;
    let other = statements_fault(alloc, safe, statements)?;
    Ok(earlier(first, other))
}
