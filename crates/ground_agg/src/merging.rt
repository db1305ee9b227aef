//! Pairs in order, each once.
ghost use Rattle.std.specs.Prelude.{◌≡◌, map, All, IfOk};
ghost use Rattle.ap_term.specs.Table.{HasDistinctValues};
ghost use Rattle.ground_agg.specs.Gathered.{IsPairOf};
ghost use Rattle.ground_agg.specs.Merged.{AreInOrder, merge, pair_cmp};

use crate::order::compare_pairs;
use crate::pair::Pair;
use ap_term::Terms;
use std::alloc::{AllocError, Global};
use std::cmp::Ordering;

// The pairs in order, each once, by a sort that merges halves.
pub(crate) fn in_order<'a>(
    alloc: Global,
    terms: &Terms,
    found: &'a [Pair],
) -> Result<Vec<&'a Pair>, AllocError>
    requires distinct { HasDistinctValues terms.now }
    requires found { All (IsPairOf terms.now) found.now }
    ensures { IfOk result (λ pairs. AreInOrder terms.now found.now (map (λ p. p.now) pairs.items)) }
{
    if found.len() < 2 {
        return all_of(alloc, found);
    }
    let (front, back) = found.split_at(found.len() / 2);
    let front = in_order(alloc, terms, front)?;
    let back = in_order(alloc, terms, back)?;
    merged(alloc, terms, &front, &back)
}

// Each pair as it stands.
fn all_of<'a>(alloc: Global, found: &'a [Pair]) -> Result<Vec<&'a Pair>, AllocError>
    ensures { IfOk result (λ pairs. map (λ p. p.now) pairs.items ≡ found.now) }
{
    let mut pairs = Vec::with_capacity(alloc, found.len())?;
    for pair in found {
        pairs.push(pair)?;
    }
    Ok(pairs)
}

// Two lists in order as one, with what both have in it once.
fn merged<'a>(
    alloc: Global,
    terms: &Terms,
    left: &[&'a Pair],
    right: &[&'a Pair],
) -> Result<Vec<&'a Pair>, AllocError>
    requires left { All (λ p. IsPairOf terms.now p.now) left.now }
    requires right { All (λ p. IsPairOf terms.now p.now) right.now }
    ensures { IfOk result (λ pairs. map (λ p. p.now) pairs.items ≡ merge (pair_cmp terms.now) (map (λ p. p.now) left.now) (map (λ p. p.now) right.now)) }
{
    let mut pairs = Vec::new(alloc);
    let mut i = 0;
    let mut j = 0;
    while i < left.len() && j < right.len() {
        match compare_pairs(terms, left[i], right[j]) {
            Ordering::Less => {
                pairs.push(left[i])?;
                i += 1;
            }
            Ordering::Equal => {
                pairs.push(left[i])?;
                i += 1;
                j += 1;
            }
            Ordering::Greater => {
                pairs.push(right[j])?;
                j += 1;
            }
        }
    }
    pairs.extend_from_slice(&left[i..])?;
    pairs.extend_from_slice(&right[j..])?;
    Ok(pairs)
}
