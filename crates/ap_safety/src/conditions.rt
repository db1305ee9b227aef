// Which rules fail a condition.
ghost use Rattle.std.specs.Prelude.{◌≡◌, flat_map, IfOk};
ghost use Rattle.std.specs.List.{list_any};
ghost use Rattle.ap_pieces.specs.Pieces.{piece_occurrences, mention_occurrences, side_occurrences};
ghost use Rattle.pred_graph.specs.Predicates.{item_positives};
ghost use Rattle.ap_safety.specs.Tests.{is_some_occurrence, has_variable as is_with_variable, lower_of as lower_in, lowest as lowest_in, head_component as component_of_heads, meets as meets_number, meets_atom as meets_atom_of, has_aggregate_fault as is_aggregate_fault, base_recursion as is_base_recursion, kind_recursion as is_kind_recursion, has_recursion as is_recursion, has_fault as is_fault};

use ap_pieces::{Mention, Occurrence, Piece, Side, pieces_of};
use ap_syntax::{ChoiceElement, Rule};
use pred_graph::{
    Pred, Safe, body_aggregates, body_positives, body_preds, choice_elements,
    condition_positives_of, head_preds, pred_of,
};
use std::alloc::{AllocError, Global};

/// A condition that rules can fail.
#[derive(Clone, Copy, Debug, PartialEq, Eq)]
pub(crate) enum RuleFault {
    /// An aggregate of a base rule mentions a predicate of the component of one of the rule's heads.
    Aggregate,
    /// A rule depends on its own head in a way that its program may not.
    Recursion,
}

// ---- variables

fn is_some(occurrences: &[Occurrence]) -> bool
    ensures { result ≡ is_some_occurrence occurrences.now }
{
    !occurrences.is_empty()
}

fn side_has_variable(side: &Side) -> bool
    ensures { result ≡ is_some_occurrence (side_occurrences side.now) }
{
    match side {
        Side::Variable(_) => true,
        Side::Any => true,
        Side::Compound(occurrences) => is_some(occurrences.as_slice()),
    }
}

fn mention_has_variable(mention: &Mention) -> bool
    ensures { result ≡ is_some_occurrence (mention_occurrences mention.now) }
{
    match mention {
        Mention::Atom(occurrences) => is_some(occurrences.as_slice()),
        Mention::Equal(left, right) => side_has_variable(left) || side_has_variable(right),
        Mention::Other(occurrences) => is_some(occurrences.as_slice()),
    }
}

fn mentions_have_variable(mentions: &[Mention]) -> bool
    ensures { result ≡ is_some_occurrence (flat_map mention_occurrences mentions.now) }
{
    for mention in mentions {
        if mention_has_variable(mention) {
            return true;
        }
    }
    false
}

fn piece_has_variable(piece: &Piece) -> bool
    ensures { result ≡ is_some_occurrence (piece_occurrences piece.now) }
{
    match piece {
        Piece::Uses(occurrences) => is_some(occurrences.as_slice()),
        Piece::Plain(mention) => mention_has_variable(mention),
        Piece::Value(side, _, _) => side_has_variable(side),
        Piece::Part(occurrences, condition) => {
            is_some(occurrences.as_slice()) || mentions_have_variable(condition.as_slice())
        }
    }
}

fn any_has_variable(pieces: &[Piece]) -> bool
    ensures { result ≡ list_any (λ piece. is_some_occurrence (piece_occurrences piece)) pieces.now }
{
    pieces.iter().any(|piece| piece_has_variable(piece))
}

fn has_variable(alloc: Global, rule: &Rule) -> Result<bool, AllocError>
    ensures { IfOk result (λ b. b ≡ is_with_variable rule.now) }
{
    let pieces = pieces_of(alloc, rule)?;
    Ok(any_has_variable(pieces.as_slice()))
}

// ---- components

fn lower(safe: &Safe, found: u64, pred: &Pred) -> u64
    ensures { result ≡ lower_in safe.now found pred.now }
{
    let component = safe.component(pred);
    if found == 0 || component < found {
        component
    } else {
        found
    }
}

fn lowest(safe: &Safe, preds: &[Pred]) -> u64
    ensures { result ≡ lowest_in safe.now preds.now }
{
    let mut found = 0;
    for pred in preds {
        found = lower(safe, found, pred);
    }
    found
}

/// The lowest component of the heads: a predicate of the body is in the component of a head exactly if it is in this one.
fn head_component(alloc: Global, safe: &Safe, rule: &Rule) -> Result<u64, AllocError>
    ensures { IfOk result (λ number. number ≡ component_of_heads safe.now rule.now) }
{
    let heads = head_preds(alloc, &rule.head)?;
    Ok(lowest(safe, heads.as_slice()))
}

fn meets(safe: &Safe, number: u64, preds: &[Pred]) -> bool
    ensures { result ≡ meets_number safe.now number preds.now }
{
    preds.iter().any(|pred| safe.component(pred) == number)
}

fn meets_atom(alloc: Global, safe: &Safe, element: &ChoiceElement) -> Result<bool, AllocError>
    ensures { IfOk result (λ b. b ≡ meets_atom_of safe.now element.now) }
{
    let atom = pred_of(alloc, &element.atom)?;
    let positives = condition_positives_of(alloc, element.condition.as_slice())?;
    Ok(meets(safe, safe.component(&atom), positives.as_slice()))
}

fn any_meets_atom(
    alloc: Global,
    safe: &Safe,
    elements: &[ChoiceElement],
) -> Result<bool, AllocError>
    ensures { IfOk result (λ b. b ≡ list_any (meets_atom_of safe.now) elements.now) }
{
    for element in elements {
        if meets_atom(alloc, safe, element)? {
            return Ok(true);
        }
    }
    Ok(false)
}

// ---- rules

fn has_aggregate_fault(alloc: Global, safe: &Safe, rule: &Rule) -> Result<bool, AllocError>
    ensures { IfOk result (λ b. b ≡ is_aggregate_fault safe.now rule.now) }
{
    if !safe.is_base() {
        return Ok(false);
    }
    let preds = body_aggregates(alloc, rule.body.as_slice())?;
    Ok(meets(safe, head_component(alloc, safe, rule)?, preds.as_slice()))
}

fn body_meets(alloc: Global, safe: &Safe, rule: &Rule) -> Result<bool, AllocError>
    ensures { IfOk result (λ b. b ≡ meets_number safe.now (component_of_heads safe.now rule.now) (flat_map item_positives rule.now.body)) }
{
    let positives = body_positives(alloc, rule.body.as_slice())?;
    Ok(meets(
        safe,
        head_component(alloc, safe, rule)?,
        positives.as_slice(),
    ))
}

fn base_recursion(alloc: Global, safe: &Safe, rule: &Rule) -> Result<bool, AllocError>
    ensures { IfOk result (λ b. b ≡ is_base_recursion safe.now rule.now) }
{
    if !has_variable(alloc, rule)? {
        return Ok(false);
    }
    if body_meets(alloc, safe, rule)? {
        return Ok(true);
    }
    any_meets_atom(alloc, safe, choice_elements(&rule.head))
}

fn kind_recursion(alloc: Global, safe: &Safe, rule: &Rule) -> Result<bool, AllocError>
    ensures { IfOk result (λ b. b ≡ is_kind_recursion safe.now rule.now) }
{
    let preds = body_preds(alloc, rule.body.as_slice())?;
    Ok(meets(safe, head_component(alloc, safe, rule)?, preds.as_slice()))
}

fn has_recursion(alloc: Global, safe: &Safe, rule: &Rule) -> Result<bool, AllocError>
    ensures { IfOk result (λ b. b ≡ is_recursion safe.now rule.now) }
{
    if safe.is_base() {
        base_recursion(alloc, safe, rule)
    } else {
        kind_recursion(alloc, safe, rule)
    }
}

/// Whether the rule fails the condition.
pub(crate) fn has_fault(
    alloc: Global,
    fault: RuleFault,
    safe: &Safe,
    rule: &Rule,
) -> Result<bool, AllocError>
    ensures { IfOk result (λ b. b ≡ is_fault fault safe.now rule.now) }
{
    match fault {
        RuleFault::Aggregate => has_aggregate_fault(alloc, safe, rule),
        RuleFault::Recursion => has_recursion(alloc, safe, rule),
    }
}
