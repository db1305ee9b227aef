// The small preference statements that stand for preference statements.
ghost use Rattle.std.specs.Prelude.{◌≡◌, codes, is_some, IfOk};
ghost use Rattle.std.specs.List.{list_all};
ghost use Rattle.std.specs.Str.{bytes_eq};
ghost use Rattle.small_front.specs.Forms.{each, element_of, rank_with, small_preference, target_of};

use crate::rules::{atom_of, is_small_atom};
use ap_syntax::{Element, Formula, Preference, Ranked, Target, Text, small};
use sqlite_items::Items;
use std::alloc::{AllocError, Global};

fn is_small_target(target: &Target) -> bool
    ensures { result ≡ is_some (target_of target.now) }
{
    match target {
        Target::For(Formula::Atom(atom)) => is_small_atom(atom),
        _ => false,
    }
}

fn target_of(target: Target) -> Option<small::Atom>
    ensures { result ≡ target_of target }
{
    match target {
        Target::For(Formula::Atom(atom)) => atom_of(atom),
        _ => None,
    }
}

fn is_small_rank(rank: &Ranked) -> bool
    ensures { result ≡ is_some (rank_with rank.now.weights rank.now.target) }
{
    rank.weights.is_empty() && is_small_target(&rank.target)
}

fn rank_of(rank: Ranked) -> Option<small::Atom>
    ensures { result ≡ rank_with rank.weights rank.target }
{
    let Ranked { weights, target } = rank;
    if weights.is_empty() {
        target_of(target)
    } else {
        None
    }
}

fn is_small_element(element: &Element) -> bool
    ensures { result ≡ is_some (element_of element.now) }
{
    if element.given.is_some() || !element.domain.is_empty() {
        return false;
    }
    let [only] = element.ranks.as_slice() else {
        return false;
    };
    is_small_rank(only)
}

fn element_of(element: Element) -> Option<small::Element>
    ensures { result ≡ element_of element }
{
    let Element {
        mut ranks,
        given,
        domain,
        ..
    } = element;
    if given.is_some() || !domain.is_empty() {
        return None;
    }
    let only = ranks.pop()?;
    if !ranks.is_empty() {
        return None;
    }
    let atom = rank_of(only)?;
    Some(small::Element {
        formula: small::Formula::Atom(atom),
    })
}

fn are_small_elements(elements: &[Element]) -> bool
    ensures { result ≡ list_all (λ element. is_some (element_of element)) elements.now }
{
    elements.iter().all(|element| is_small_element(element))
}

fn elements_of(
    alloc: Global,
    mut elements: Items<Element>,
) -> Result<Option<Items<small::Element>>, AllocError>
    ensures { IfOk result (λ found. found ≡ each element_of elements) }
{
    let mut small = Vec::with_capacity(alloc, elements.len())?;
    'elements: while let Some(last) = elements.pop() {
        match element_of(last) {
            Some(element) => small.push(element)?,
            None => return Ok(None),
        }
    }
    small.reverse();
    Ok(Some(Items::from_vec(small)))
}

fn is_subset(kind: &Text) -> bool
    ensures { result ≡ bytes_eq kind.now (codes "subset") }
{
    kind.as_str() == "subset"
}

/// Whether a small preference statement stands for one.
pub fn is_small_preference(preference: &Preference) -> bool
    ensures { result ≡ is_some (small_preference preference.now) }
{
    is_subset(&preference.kind) && are_small_elements(preference.elements.as_slice())
}

/// The small preference statement that stands for one, if it has one. It takes the names of the statement.
pub fn small_preference(
    alloc: Global,
    preference: Preference,
) -> Result<Option<small::Preference>, AllocError>
    ensures { IfOk result (λ found. found ≡ small_preference preference) }
{
    let Preference {
        name,
        kind,
        elements,
        ..
    } = preference;
    if !is_subset(&kind) {
        return Ok(None);
    }
    match elements_of(alloc, elements)? {
        Some(elements) => Ok(Some(small::Preference {
            name,
            kind,
            elements,
        })),
        None => Ok(None),
    }
}
