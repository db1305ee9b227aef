// The canonical text of rules.
ghost use Rattle.std.specs.Prelude.{◌≡◌, ◌++◌, codes, false, OnOk, string_bytes};
ghost use Rattle.ap_syntax.specs.declared.rules.BodyItem.TheVariants.{Agg};
ghost use Rattle.ap_syntax.specs.Pieces.{spelled, text_of};
ghost use Rattle.ap_syntax.specs.CanonicalRules.{agg_element_pieces, body_pieces, choice_element_pieces, condition_pieces, function_word, head_pieces, item_pieces, left_pieces, negation_pieces, right_pieces, rule_pieces, separator};

use crate::printed_lists::{Canonical, push_braced};
use crate::printed_terms::{push_atom, push_literals, push_spaced, push_term, push_terms};
use crate::rules::{AggElement, BodyItem, ChoiceElement, Function, Guard, HeadForm, Rule};
use crate::terms::Literal;
use sqlite_items::Boxed;
use std::alloc::AllocError;

/// Appends a condition behind its colon, and nothing where there is none.
pub(crate) fn push_condition(condition: &[Literal], out: &mut String) -> Result<(), AllocError>
    ensures { OnOk result (string_bytes out.new ≡ string_bytes out.old ++ text_of (condition_pieces condition.now)) }
{
    if condition.is_empty() {
        return Ok(());
    }
    out.push_str(" : ")?;
    push_literals(condition, out)
}

/// Appends a guard before braces.
fn push_left(guard: &Option<Boxed<Guard>>, out: &mut String) -> Result<(), AllocError>
    ensures { OnOk result (string_bytes out.new ≡ string_bytes out.old ++ text_of (left_pieces guard.now)) }
{
    match guard {
        None => Ok(()),
        Some(guard) => {
            let guard = guard.get();
            push_term(&guard.term, out)?;
            push_spaced(guard.rel.sign(), out)
        }
    }
}

/// Appends a guard behind braces.
fn push_right(guard: &Option<Boxed<Guard>>, out: &mut String) -> Result<(), AllocError>
    ensures { OnOk result (string_bytes out.new ≡ string_bytes out.old ++ text_of (right_pieces guard.now)) }
{
    match guard {
        None => Ok(()),
        Some(guard) => {
            let guard = guard.get();
            push_spaced(guard.rel.sign(), out)?;
            push_term(&guard.term, out)
        }
    }
}

impl Canonical for ChoiceElement {
    ghost pieces = { choice_element_pieces };

    fn push(&self, out: &mut String) -> Result<(), AllocError> {
        push_atom(&self.atom, out)?;
        push_condition(self.condition.as_slice(), out)
    }
}

impl Canonical for AggElement {
    ghost pieces = { agg_element_pieces };

    fn push(&self, out: &mut String) -> Result<(), AllocError> {
        push_terms(self.terms.as_slice(), out)?;
        push_condition(self.condition.as_slice(), out)
    }
}

impl Function {
    /// Its word.
    fn word(self) -> &'static str
        ensures { result.now ≡ function_word self }
    {
        match self {
            Function::Count => "#count",
            Function::Sum => "#sum",
        }
    }
}

/// Appends an aggregate that is not negated.
fn push_aggregate(
    left: &Option<Boxed<Guard>>,
    function: Function,
    elements: &[AggElement],
    right: &Option<Boxed<Guard>>,
    out: &mut String,
) -> Result<(), AllocError>
    ensures { OnOk result (string_bytes out.new ≡ string_bytes out.old
        ++ text_of (item_pieces (Agg false left.now function elements.now right.now))) }
{
    push_left(left, out)?;
    out.push_str(function.word())?;
    push_braced(elements, out)?;
    push_right(right, out)
}

/// Appends `not` where it stands.
fn push_negation(negated: bool, out: &mut String) -> Result<(), AllocError>
    ensures { OnOk result (string_bytes out.new ≡ string_bytes out.old ++ text_of (negation_pieces negated)) }
{
    if negated {
        out.push_str("not ")
    } else {
        Ok(())
    }
}

/// Appends a part of a body.
fn push_item(item: &BodyItem, out: &mut String) -> Result<(), AllocError>
    ensures { OnOk result (string_bytes out.new ≡ string_bytes out.old ++ text_of (item_pieces item.now)) }
{
    match item {
        BodyItem::Plain(literal) => literal.push(out),
        BodyItem::All {
            at: _,
            literal,
            condition,
        } => {
            literal.get().push(out)?;
            out.push_str(" : ")?;
            push_literals(condition.as_slice(), out)
        }
        BodyItem::Agg {
            negated,
            left,
            function,
            elements,
            right,
        } => {
            push_negation(*negated, out)?;
            push_aggregate(left, *function, elements.get().as_slice(), right, out)
        }
    }
}

/// What stands behind a part of a body, before the next one.
fn separator_behind(item: &BodyItem) -> &'static str
    ensures { result.now ≡ text_of (separator item.now) }
{
    match item {
        BodyItem::All { .. } => "; ",
        _ => ", ",
    }
}

/// Appends a body.
fn push_body(body: &[BodyItem], out: &mut String) -> Result<(), AllocError>
    ensures { OnOk result (string_bytes out.new ≡ string_bytes out.old ++ text_of (body_pieces body.now)) }
{
    let mut between = "";
    for item in body {
        out.push_str(between)?;
        push_item(item, out)?;
        between = separator_behind(item);
    }
    Ok(())
}

/// Appends a head.
fn push_head(head: &HeadForm, out: &mut String) -> Result<(), AllocError>
    ensures { OnOk result (string_bytes out.new ≡ string_bytes out.old ++ text_of (head_pieces head.now)) }
{
    match head {
        HeadForm::One(atom) => push_atom(atom, out),
        HeadForm::Choice {
            left,
            elements,
            right,
        } => {
            push_left(left, out)?;
            push_braced(elements.get().as_slice(), out)?;
            push_right(right, out)
        }
        HeadForm::Nothing => Ok(()),
    }
}

/// Appends a body and the stop behind it.
fn push_ended(body: &[BodyItem], out: &mut String) -> Result<(), AllocError>
    ensures { OnOk result (string_bytes out.new ≡ string_bytes out.old
        ++ text_of (body_pieces body.now ++ spelled (codes "."))) }
{
    push_body(body, out)?;
    out.push_str(".")
}

/// Appends a rule.
pub(crate) fn push_rule(rule: &Rule, out: &mut String) -> Result<(), AllocError>
    ensures { OnOk result (string_bytes out.new ≡ string_bytes out.old ++ text_of (rule_pieces rule.now)) }
{
    let body = rule.body.as_slice();
    match &rule.head {
        HeadForm::Nothing => {
            out.push_str(":- ")?;
            push_ended(body, out)
        }
        head => {
            push_head(head, out)?;
            if body.is_empty() {
                return out.push_str(".");
            }
            out.push_str(" :- ")?;
            push_ended(body, out)
        }
    }
}
