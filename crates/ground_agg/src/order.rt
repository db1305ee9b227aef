//! The order of tuples, of conditions and of pairs.
ghost use Rattle.std.specs.Prelude.{◌≡◌, length, map, All};
ghost use Rattle.ap_term.specs.Value.{arguments_from};
ghost use Rattle.ap_term.specs.Order.{values_cmp};
ghost use Rattle.ap_term.specs.Table.{IsIdOf, value_at};
ghost use Rattle.sets.specs.Literals.{literal_cmp, literals_cmp};
ghost use Rattle.ground_agg.specs.Gathered.{IsPairOf};
ghost use Rattle.ground_agg.specs.Merged.{pair_cmp};
ghost use Rattle.ground_agg.specs.Tuples.{tuple_cmp};

use crate::pair::Pair;
use ap_term::{TermId, Terms};
use std::cmp::Ordering;

// The order of two pairs: by their tuples, and then by their conditions.
pub(crate) fn compare_pairs(terms: &Terms, a: &Pair, b: &Pair) -> Ordering
    requires a { IsPairOf terms.now a.now }
    requires b { IsPairOf terms.now b.now }
    ensures { result ≡ pair_cmp terms.now a.now b.now }
{
    match compare_tuples(terms, a.tuple.as_slice(), b.tuple.as_slice()) {
        Ordering::Equal => compare_conditions(a.condition.as_slice(), b.condition.as_slice()),
        unequal => unequal,
    }
}

// The order of two conditions: their literals decide from first to last, and a proper prefix comes first.
fn compare_conditions(a: &[i64], b: &[i64]) -> Ordering
    ensures { result ≡ literals_cmp a.now b.now }
{
    let mut at = 0;
    while at < a.len() && at < b.len() {
        match compare_literals(a[at], b[at]) {
            Ordering::Equal => at += 1,
            unequal => return unequal,
        }
    }
    a.len().cmp(&b.len())
}

// The order of two literals: by their atoms, and of one atom the positive one first.
#[tactic(auto, using(sets::proofs::LiteralLemmas::literal_cmp_parts))]
pub(crate) fn compare_literals(a: i64, b: i64) -> Ordering
    ensures { result ≡ literal_cmp a b }
{
    match a.unsigned_abs().cmp(&b.unsigned_abs()) {
        Ordering::Equal => (a < 0).cmp(&(b < 0)),
        unequal => unequal,
    }
}

// The order of two tuples: by the number of their members, and then by these from first to last.
pub(crate) fn compare_tuples(terms: &Terms, a: &[TermId], b: &[TermId]) -> Ordering
    requires a { All (IsIdOf terms.now) a.now }
    requires b { All (IsIdOf terms.now) b.now }
    ensures { result ≡ tuple_cmp terms.now a.now b.now }
{
    if a.len() != b.len() {
        return a.len().cmp(&b.len());
    }
    compare_members(terms, a, b)
}

// The order of two tuples of as many members.
fn compare_members(terms: &Terms, a: &[TermId], b: &[TermId]) -> Ordering
    requires size { length a.now ≡ length b.now }
    requires a { All (IsIdOf terms.now) a.now }
    requires b { All (IsIdOf terms.now) b.now }
    ensures { result ≡ values_cmp (arguments_from (map (value_at terms.now) a.now)) (arguments_from (map (value_at terms.now) b.now)) }
{
    for at in 0..a.len() {
        match terms.compare(a[at], b[at]) {
            Ordering::Equal => {}
            unequal => return unequal,
        }
    }
    Ordering::Equal
}
