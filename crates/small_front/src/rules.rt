// The small rules that stand for rules.
ghost use Rattle.std.specs.Prelude.{◌≡◌, is_some, IfOk};
ghost use Rattle.std.specs.List.{list_all};
ghost use Rattle.small_front.specs.Forms.{atom_of, choice_element_of, each, head_of, item_of, literal_of, small_rule};

use ap_syntax::{Atom, BodyItem, ChoiceElement, HeadForm, Literal, Rule, small};
use sqlite_items::Items;
use std::alloc::{AllocError, Global};

/// Whether a small atom stands for an atom.
pub fn is_small_atom(atom: &Atom) -> bool
    ensures { result ≡ is_some (atom_of atom.now) }
{
    atom.terms.is_empty()
}

/// The small atom that stands for an atom, if it has one.
pub fn atom_of(atom: Atom) -> Option<small::Atom>
    ensures { result ≡ atom_of atom }
{
    let Atom { name, terms } = atom;
    if terms.is_empty() {
        Some(small::Atom { name })
    } else {
        None
    }
}

fn is_small_literal(literal: &Literal) -> bool
    ensures { result ≡ is_some (literal_of literal.now) }
{
    match literal {
        Literal::Pos(atom) => is_small_atom(atom),
        Literal::Not(atom) => is_small_atom(atom),
        Literal::Compare(..) => false,
    }
}

fn literal_of(literal: Literal) -> Option<small::Literal>
    ensures { result ≡ literal_of literal }
{
    match literal {
        Literal::Pos(atom) => atom_of(atom).map(small::Literal::Pos),
        Literal::Not(atom) => atom_of(atom).map(small::Literal::Not),
        Literal::Compare(..) => None,
    }
}

fn is_small_item(item: &BodyItem) -> bool
    ensures { result ≡ is_some (item_of item.now) }
{
    match item {
        BodyItem::Plain(literal) => is_small_literal(literal),
        _ => false,
    }
}

fn item_of(item: BodyItem) -> Option<small::BodyItem>
    ensures { result ≡ item_of item }
{
    match item {
        BodyItem::Plain(literal) => literal_of(literal).map(small::BodyItem::Plain),
        _ => None,
    }
}

fn is_small_body(items: &[BodyItem]) -> bool
    ensures { result ≡ list_all (λ item. is_some (item_of item)) items.now }
{
    items.iter().all(|item| is_small_item(item))
}

fn body_of(
    alloc: Global,
    mut items: Items<BodyItem>,
) -> Result<Option<Items<small::BodyItem>>, AllocError>
    ensures { IfOk result (λ found. found ≡ each item_of items) }
{
    let mut small = Vec::with_capacity(alloc, items.len())?;
    'items: while let Some(last) = items.pop() {
        match item_of(last) {
            Some(item) => small.push(item)?,
            None => return Ok(None),
        }
    }
    small.reverse();
    Ok(Some(Items::from_vec(small)))
}

fn is_small_choice_element(element: &ChoiceElement) -> bool
    ensures { result ≡ is_some (choice_element_of element.now) }
{
    is_small_atom(&element.atom) && element.condition.is_empty()
}

fn choice_element_of(element: ChoiceElement) -> Option<small::ChoiceElement>
    ensures { result ≡ choice_element_of element }
{
    let ChoiceElement { atom, condition } = element;
    match atom_of(atom) {
        Some(atom) if condition.is_empty() => Some(small::ChoiceElement { atom }),
        _ => None,
    }
}

fn is_small_choice(elements: &[ChoiceElement]) -> bool
    ensures { result ≡ list_all (λ element. is_some (choice_element_of element)) elements.now }
{
    elements
        .iter()
        .all(|element| is_small_choice_element(element))
}

fn choice_of(
    alloc: Global,
    mut elements: Items<ChoiceElement>,
) -> Result<Option<Items<small::ChoiceElement>>, AllocError>
    ensures { IfOk result (λ found. found ≡ each choice_element_of elements) }
{
    let mut small = Vec::with_capacity(alloc, elements.len())?;
    'elements: while let Some(last) = elements.pop() {
        match choice_element_of(last) {
            Some(element) => small.push(element)?,
            None => return Ok(None),
        }
    }
    small.reverse();
    Ok(Some(Items::from_vec(small)))
}

fn is_small_head(head: &HeadForm) -> bool
    ensures { result ≡ is_some (head_of head.now) }
{
    match head {
        HeadForm::One(atom) => is_small_atom(atom),
        HeadForm::Choice {
            left: None,
            elements,
            right: None,
        } => is_small_choice(elements.get().as_slice()),
        HeadForm::Choice { .. } => false,
        HeadForm::Nothing => true,
    }
}

fn head_of(alloc: Global, head: HeadForm) -> Result<Option<small::HeadForm>, AllocError>
    ensures { IfOk result (λ found. found ≡ head_of head) }
{
    match head {
        HeadForm::One(atom) => Ok(atom_of(atom).map(small::HeadForm::One)),
        HeadForm::Choice {
            left: None,
            elements,
            right: None,
        } => Ok(choice_of(alloc, elements.into_inner())?.map(small::HeadForm::Choice)),
        HeadForm::Choice { .. } => Ok(None),
        HeadForm::Nothing => Ok(Some(small::HeadForm::Nothing)),
    }
}

/// Whether a small rule stands for a rule.
pub fn is_small_rule(rule: &Rule) -> bool
    ensures { result ≡ is_some (small_rule rule.now) }
{
    is_small_head(&rule.head) && is_small_body(rule.body.as_slice())
}

/// The small rule that stands for a rule, if it has one. It takes the names of the rule.
pub fn small_rule(alloc: Global, rule: Rule) -> Result<Option<small::Rule>, AllocError>
    ensures { IfOk result (λ found. found ≡ small_rule rule) }
{
    let Some(head) = head_of(alloc, rule.head)? else {
        return Ok(None);
    };
    match body_of(alloc, rule.body)? {
        Some(body) => Ok(Some(small::Rule { head, body })),
        None => Ok(None),
    }
}
