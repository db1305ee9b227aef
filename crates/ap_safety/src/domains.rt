// The first condition that has a predicate which is not definite.
ghost use Rattle.std.specs.Prelude.{◌≡◌, None, flat_map, map, not, IfOk, ⊤};
ghost use Rattle.std.specs.List.{list_any};
ghost use Rattle.ap_bindings.specs.Texts.{IsFirstFailing};
ghost use Rattle.pred_graph.specs.Predicates.{preds_of};
ghost use Rattle.pred_graph.specs.Known.{definite_in, IsSafe};
ghost use Rattle.ap_safety.specs.Conditions.{domain_place, IsIndefinite, item_domains, rule_domains, element_domain, statement_domains, domains};
ghost use Rattle.ap_safety.specs.Tests.{look_at as looked_at, first_domain as first_among};

use ap_bindings::{Failing, earlier};
use ap_syntax::{BodyItem, Element, Literal, Preference, Rule};
use pred_graph::{Pred, Safe, condition_preds_of};
use std::alloc::{AllocError, Global};

fn any_indefinite(safe: &Safe, preds: &[Pred]) -> bool
    ensures { result ≡ list_any (λ p. not (definite_in safe.now p)) preds.now }
{
    preds.iter().any(|pred| !safe.is_definite(pred))
}

/// The first of `found` and of this condition, if it fails.
fn look_at(
    alloc: Global,
    safe: &Safe,
    found: Option<Failing<()>>,
    file: u32,
    at: u32,
    condition: &[Literal],
) -> Result<Option<Failing<()>>, AllocError>
    ensures { IfOk result (λ first. first ≡ looked_at safe.now found (record { file = file; at = at; condition = condition.now })) }
{
    let preds = condition_preds_of(alloc, condition)?;
    if any_indefinite(safe, preds.as_slice()) {
        let own = Failing { file, at, what: () };
        Ok(earlier(found, Some(own)))
    } else {
        Ok(earlier(found, None))
    }
}

fn look_in_item(
    alloc: Global,
    safe: &Safe,
    found: Option<Failing<()>>,
    file: u32,
    item: &BodyItem,
) -> Result<Option<Failing<()>>, AllocError>
    ensures { IfOk result (λ first. first ≡ first_among safe.now found (item_domains file item.now)) }
{
    match item {
        BodyItem::Plain(_) => Ok(found),
        BodyItem::All { at, condition, .. } => look_at(
            alloc,
            safe,
            found,
            file,
            *at,
            condition.as_slice(),
        ),
        BodyItem::Agg { .. } => Ok(found),
    }
}

fn look_in_body(
    alloc: Global,
    safe: &Safe,
    found: Option<Failing<()>>,
    file: u32,
    body: &[BodyItem],
) -> Result<Option<Failing<()>>, AllocError>
    ensures { IfOk result (λ first. first ≡ first_among safe.now found (flat_map (item_domains file) body.now)) }
{
    let mut first = found;
    for item in body {
        first = look_in_item(alloc, safe, first, file, item)?;
    }
    Ok(first)
}

fn look_in_rules(
    alloc: Global,
    safe: &Safe,
    found: Option<Failing<()>>,
    rules: &[Rule],
) -> Result<Option<Failing<()>>, AllocError>
    ensures { IfOk result (λ first. first ≡ first_among safe.now found (flat_map rule_domains rules.now)) }
{
    let mut first = found;
    for rule in rules {
        first = look_in_body(alloc, safe, first, rule.file, rule.body.as_slice())?;
    }
    Ok(first)
}

fn look_in_elements(
    alloc: Global,
    safe: &Safe,
    found: Option<Failing<()>>,
    file: u32,
    elements: &[Element],
) -> Result<Option<Failing<()>>, AllocError>
    ensures { IfOk result (λ first. first ≡ first_among safe.now found (map (element_domain file) elements.now)) }
{
    let mut first = found;
    for element in elements {
        first = look_at(
            alloc,
            safe,
            first,
            file,
            element.at,
            element.domain.as_slice(),
        )?;
    }
    Ok(first)
}

fn look_in_statements(
    alloc: Global,
    safe: &Safe,
    found: Option<Failing<()>>,
    statements: &[Preference],
) -> Result<Option<Failing<()>>, AllocError>
    ensures { IfOk result (λ first. first ≡ first_among safe.now found (flat_map statement_domains statements.now)) }
{
    let mut first = found;
    for statement in statements {
        let elements = statement.elements.as_slice();
        first = look_in_elements(alloc, safe, first, statement.file, elements)?;
    }
    Ok(first)
}

fn look_in_all(
    alloc: Global,
    safe: &Safe,
    rules: &[Rule],
    statements: &[Preference],
) -> Result<Option<Failing<()>>, AllocError>
    ensures { IfOk result (λ first. first ≡ first_among safe.now None (domains rules.now statements.now)) }
{
    let found = look_in_rules(alloc, safe, None, rules)?;
    look_in_statements(alloc, safe, found, statements)
}

/// The first of the conditions of conditional literals and elements that has a predicate which is not definite.
pub(crate) fn first_indefinite(
    alloc: Global,
    safe: &Safe,
    rules: &[Rule],
    statements: &[Preference],
) -> Result<Option<Failing<()>>, AllocError>
    requires { IsSafe rules.now safe.now }
    ensures { IfOk result (IsFirstFailing domain_place (IsIndefinite rules.now safe.now.base) (λ domain told. ⊤) (domains rules.now statements.now)) }
{
    look_in_all(alloc, safe, rules, statements)
}
