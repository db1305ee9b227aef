//! Tuples of different lengths, with repeated pairs, over a table whose numbers are not in the order of its values.
ghost use Rattle.std.specs.Prelude.{All, IsTrue};
ghost use Rattle.ap_term.specs.Table.{IsIdOf};
ghost use Rattle.ground_agg.specs.Gathered.{IsPairOf};

use crate::{Pair, TupleRow, are_in_order, gather};
use ap_term::{Args, Shape, TermId, Terms, Text};
use sqlite_items::Items;
use std::process::Abort;
use std::test::Fail;

// The constants b, a and c, by the numbers 0, 1 and 2.
fn constants(rt: &impl AllocGlobal) -> Result<Terms, Fail> {
    let mut terms = Terms::new(rt.alloc());
    terms.intern(Shape::Sym(Text::new(rt.alloc(), "b")?))?;
    terms.intern(Shape::Sym(Text::new(rt.alloc(), "a")?))?;
    terms.intern(Shape::Sym(Text::new(rt.alloc(), "c")?))?;
    Ok(terms)
}

// What is found.
static FOUND: [(&[u64], &[i64]); 9] = [
    (&[1, 1], &[4]),
    (&[2], &[]),
    (&[1], &[-1, 2]),
    (&[0], &[3]),
    (&[1], &[-2]),
    (&[1], &[-1, 2]),
    (&[], &[7]),
    (&[1], &[1, -2]),
    (&[0], &[3]),
];

// The tuples in order, with their conditions in order.
static GATHERED: [(&[u64], &[&[i64]]); 5] = [
    (&[], &[&[7]]),
    (&[1], &[&[1, -2], &[-1, 2], &[-2]]),
    (&[0], &[&[3]]),
    (&[2], &[&[]]),
    (&[1, 1], &[&[4]]),
];

fn pair(rt: &impl AllocGlobal, tuple: &[u64], condition: &[i64]) -> Result<Pair, Fail> {
    let mut ids = Vec::new(rt.alloc());
    for id in tuple {
        ids.push(TermId(*id))?;
    }
    Ok(Pair {
        tuple: Args::from_vec(ids),
        condition: Items::from_slice(rt.alloc(), condition)?,
    })
}

// Whether the tuples are made of values of the table, and the conditions are in order.
fn are_of(terms: &Terms, pairs: &[Pair]) -> bool
    ensures { IsTrue result → All (IsPairOf terms.now) pairs.now }
{
    for pair in pairs {
        if !is_of(terms, pair) {
            return false;
        }
    }
    true
}

fn is_of(terms: &Terms, pair: &Pair) -> bool
    ensures { IsTrue result → IsPairOf terms.now pair.now }
{
    has_members_of(terms, pair.tuple.as_slice()) && are_in_order(pair.condition.as_slice())
}

fn has_members_of(terms: &Terms, tuple: &[TermId]) -> bool
    ensures { IsTrue result → All (IsIdOf terms.now) tuple.now }
{
    let len = terms.len();
    tuple.iter().all(|id| id.0 < len)
}

fn gathered(
    rt: &(impl Abort + AllocGlobal),
    terms: &Terms,
    pairs: &[Pair],
) -> Result<Vec<TupleRow>, Fail> {
    assert!(rt; are_of(terms, pairs));
    Ok(gather(rt.alloc(), terms, pairs)?)
}

fn is_row(row: &TupleRow, tuple: &[u64], conditions: &[&[i64]]) -> bool {
    let ids = row.tuple.as_slice();
    let mine = row.conditions.as_slice();
    ids.len() == tuple.len()
        && ids.iter().zip(tuple).all(|(id, want)| id.0 == *want)
        && mine.len() == conditions.len()
        && mine
            .iter()
            .zip(conditions)
            .all(|(condition, want)| condition.as_slice() == *want)
}

#[test]
fn tuples_of_different_lengths(rt: HostRuntime) -> Result<(), Fail> {
    let terms = constants(&rt)?;
    let mut pairs = Vec::new(rt.alloc());
    for (tuple, condition) in &FOUND {
        pairs.push(pair(&rt, tuple, condition)?)?;
    }
    assert!(rt; !are_in_order([2, 2].as_slice()));
    let rows = gathered(&rt, &terms, &pairs)?;
    assert_eq!(rt; rows.len(), GATHERED.len());
    for (row, (tuple, conditions)) in rows.iter().zip(&GATHERED) {
        assert!(rt; is_row(row, tuple, conditions), "{row:?}");
    }
    Ok(())
}
