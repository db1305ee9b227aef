// The predicates that rules mention.
ghost use Rattle.std.specs.Prelude.{◌≡◌, ◌∷◌, [], ◌++◌, flat_map, map, OnOk, IfOk};
ghost use Rattle.pred_graph.specs.Predicates.{pred_of as predicate_of, literal_preds, positive_preds, preds_of, positives_of, element_pred, condition_preds, head_preds as heads_of, choice_preds as choices_of, choice_elements as elements_of, tuple_preds, aggregate_preds, item_preds, item_positives, rule_preds};

use crate::pred::{Pred, pred_of};
use ap_syntax::{AggElement, Atom, BodyItem, ChoiceElement, HeadForm, Literal, Rule};
use sqlite_items::Items;
use std::alloc::{AllocError, Global};

fn push_atom(alloc: Global, preds: &mut Items<Pred>, atom: &Atom) -> Result<(), AllocError>
    ensures { OnOk result (preds.new ≡ preds.old ++ predicate_of atom.now ∷ []) }
{
    preds.push(pred_of(alloc, atom)?)
}

fn push_literal(alloc: Global, preds: &mut Items<Pred>, literal: &Literal) -> Result<(), AllocError>
    ensures { OnOk result (preds.new ≡ preds.old ++ literal_preds literal.now) }
{
    match literal {
        Literal::Pos(atom) => push_atom(alloc, preds, atom),
        Literal::Not(atom) => push_atom(alloc, preds, atom),
        Literal::Compare(..) => Ok(()),
    }
}

fn push_literals(
    alloc: Global,
    preds: &mut Items<Pred>,
    literals: &[Literal],
) -> Result<(), AllocError>
    ensures { OnOk result (preds.new ≡ preds.old ++ preds_of literals.now) }
{
    for literal in literals {
        push_literal(alloc, preds, literal)?;
    }
    Ok(())
}

fn push_positive(
    alloc: Global,
    preds: &mut Items<Pred>,
    literal: &Literal,
) -> Result<(), AllocError>
    ensures { OnOk result (preds.new ≡ preds.old ++ positive_preds literal.now) }
{
    match literal {
        Literal::Pos(atom) => push_atom(alloc, preds, atom),
        Literal::Not(_) => Ok(()),
        Literal::Compare(..) => Ok(()),
    }
}

fn push_positives(
    alloc: Global,
    preds: &mut Items<Pred>,
    literals: &[Literal],
) -> Result<(), AllocError>
    ensures { OnOk result (preds.new ≡ preds.old ++ positives_of literals.now) }
{
    for literal in literals {
        push_positive(alloc, preds, literal)?;
    }
    Ok(())
}

/// The predicates of a condition. It fails where `pred_of` fails for one of the atoms, or for want of memory.
pub fn condition_preds_of(alloc: Global, literals: &[Literal]) -> Result<Items<Pred>, AllocError>
    ensures { IfOk result (λ preds. preds ≡ preds_of literals.now) }
{
    let mut preds = Items::new(alloc);
    push_literals(alloc, &mut preds, literals)?;
    Ok(preds)
}

/// The predicates of the positive literals of a condition. It fails where `pred_of` fails for one of the atoms, or for want of
/// memory.
pub fn condition_positives_of(
    alloc: Global,
    literals: &[Literal],
) -> Result<Items<Pred>, AllocError>
    ensures { IfOk result (λ preds. preds ≡ positives_of literals.now) }
{
    let mut preds = Items::new(alloc);
    push_positives(alloc, &mut preds, literals)?;
    Ok(preds)
}

fn push_tuples(
    alloc: Global,
    preds: &mut Items<Pred>,
    elements: &[AggElement],
) -> Result<(), AllocError>
    ensures { OnOk result (preds.new ≡ preds.old ++ flat_map tuple_preds elements.now) }
{
    for element in elements {
        push_literals(alloc, preds, element.condition.as_slice())?;
    }
    Ok(())
}

fn push_item(alloc: Global, preds: &mut Items<Pred>, item: &BodyItem) -> Result<(), AllocError>
    ensures { OnOk result (preds.new ≡ preds.old ++ item_preds item.now) }
{
    match item {
        BodyItem::Plain(literal) => push_literal(alloc, preds, literal),
        BodyItem::All {
            literal,
            condition,
            ..
        } => {
            push_literal(alloc, preds, literal.get())?;
            push_literals(alloc, preds, condition.as_slice())
        }
        BodyItem::Agg { elements, .. } => push_tuples(alloc, preds, elements.get().as_slice()),
    }
}

fn push_item_positives(
    alloc: Global,
    preds: &mut Items<Pred>,
    item: &BodyItem,
) -> Result<(), AllocError>
    ensures { OnOk result (preds.new ≡ preds.old ++ item_positives item.now) }
{
    match item {
        BodyItem::Plain(literal) => push_positive(alloc, preds, literal),
        BodyItem::All {
            literal,
            condition,
            ..
        } => {
            push_positive(alloc, preds, literal.get())?;
            push_positives(alloc, preds, condition.as_slice())
        }
        BodyItem::Agg { .. } => Ok(()),
    }
}

fn push_aggregate(alloc: Global, preds: &mut Items<Pred>, item: &BodyItem) -> Result<(), AllocError>
    ensures { OnOk result (preds.new ≡ preds.old ++ aggregate_preds item.now) }
{
    match item {
        BodyItem::Plain(_) => Ok(()),
        BodyItem::All { .. } => Ok(()),
        BodyItem::Agg { elements, .. } => push_tuples(alloc, preds, elements.get().as_slice()),
    }
}

fn push_body(alloc: Global, preds: &mut Items<Pred>, body: &[BodyItem]) -> Result<(), AllocError>
    ensures { OnOk result (preds.new ≡ preds.old ++ flat_map item_preds body.now) }
{
    for item in body {
        push_item(alloc, preds, item)?;
    }
    Ok(())
}

/// The predicates that a body mentions, in whatever way. It fails where `pred_of` fails for one of the atoms, or for want of
/// memory.
pub fn body_preds(alloc: Global, body: &[BodyItem]) -> Result<Items<Pred>, AllocError>
    ensures { IfOk result (λ preds. preds ≡ flat_map item_preds body.now) }
{
    let mut preds = Items::new(alloc);
    push_body(alloc, &mut preds, body)?;
    Ok(preds)
}

/// The predicates of the positive literals of a body outside aggregates. It fails where `pred_of` fails for one of the atoms,
/// or for want of memory.
pub fn body_positives(alloc: Global, body: &[BodyItem]) -> Result<Items<Pred>, AllocError>
    ensures { IfOk result (λ preds. preds ≡ flat_map item_positives body.now) }
{
    let mut preds = Items::new(alloc);
    for item in body {
        push_item_positives(alloc, &mut preds, item)?;
    }
    Ok(preds)
}

/// The predicates that the aggregates of a body mention. It fails where `pred_of` fails for one of the atoms, or for want of
/// memory.
pub fn body_aggregates(alloc: Global, body: &[BodyItem]) -> Result<Items<Pred>, AllocError>
    ensures { IfOk result (λ preds. preds ≡ flat_map aggregate_preds body.now) }
{
    let mut preds = Items::new(alloc);
    for item in body {
        push_aggregate(alloc, &mut preds, item)?;
    }
    Ok(preds)
}

/// The elements of a choice; none for another head.
pub fn choice_elements(head: &HeadForm) -> &[ChoiceElement]
    ensures { result.now ≡ elements_of head.now }
{
    match head {
        HeadForm::One(_) => &[],
        HeadForm::Choice { elements, .. } => elements.get().as_slice(),
        HeadForm::Nothing => &[],
    }
}

fn push_elements(
    alloc: Global,
    preds: &mut Items<Pred>,
    elements: &[ChoiceElement],
) -> Result<(), AllocError>
    ensures { OnOk result (preds.new ≡ preds.old ++ map element_pred elements.now) }
{
    for element in elements {
        push_atom(alloc, preds, &element.atom)?;
    }
    Ok(())
}

fn push_heads(alloc: Global, preds: &mut Items<Pred>, head: &HeadForm) -> Result<(), AllocError>
    ensures { OnOk result (preds.new ≡ preds.old ++ heads_of head.now) }
{
    match head {
        HeadForm::One(atom) => push_atom(alloc, preds, atom),
        HeadForm::Choice { elements, .. } => push_elements(alloc, preds, elements.get().as_slice()),
        HeadForm::Nothing => Ok(()),
    }
}

/// The predicates of the atoms of a head. It fails where `pred_of` fails for one of the atoms, or for want of memory.
pub fn head_preds(alloc: Global, head: &HeadForm) -> Result<Items<Pred>, AllocError>
    ensures { IfOk result (λ preds. preds ≡ heads_of head.now) }
{
    let mut preds = Items::new(alloc);
    push_heads(alloc, &mut preds, head)?;
    Ok(preds)
}

/// The predicates of the atoms of a choice; none for another head. It fails where `pred_of` fails for one of the atoms, or for
/// want of memory.
pub fn choice_preds(alloc: Global, head: &HeadForm) -> Result<Items<Pred>, AllocError>
    ensures { IfOk result (λ preds. preds ≡ choices_of head.now) }
{
    let mut preds = Items::new(alloc);
    match head {
        HeadForm::One(_) => (),
        HeadForm::Choice { elements, .. } => push_elements(
            alloc,
            &mut preds,
            elements.get().as_slice(),
        )?,
        HeadForm::Nothing => (),
    }
    Ok(preds)
}

fn push_conditions(
    alloc: Global,
    preds: &mut Items<Pred>,
    elements: &[ChoiceElement],
) -> Result<(), AllocError>
    ensures { OnOk result (preds.new ≡ preds.old ++ flat_map condition_preds elements.now) }
{
    for element in elements {
        push_literals(alloc, preds, element.condition.as_slice())?;
    }
    Ok(())
}

/// All predicates that a rule mentions. It fails where `pred_of` fails for one of the atoms, or for want of memory.
pub(crate) fn mentioned(alloc: Global, rule: &Rule) -> Result<Items<Pred>, AllocError>
    ensures { IfOk result (λ preds. preds ≡ rule_preds rule.now) }
{
    let mut preds = Items::new(alloc);
    push_heads(alloc, &mut preds, &rule.head)?;
    push_body(alloc, &mut preds, rule.body.as_slice())?;
    push_conditions(alloc, &mut preds, choice_elements(&rule.head))?;
    Ok(preds)
}
