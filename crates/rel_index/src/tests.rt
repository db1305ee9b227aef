//! The rows with given terms at 0 to 5 places, and relations without rows or members.
ghost use Rattle.std.specs.Prelude.{◌<◌, map, All, IsTrue};
ghost use Rattle.rel_index.specs.Keys.{AreDistinct};

use crate::{Index, Relation, select};
use ap_term::TermId;
use std::process::Abort;
use std::test::Fail;

static ROWS: [[TermId; 5]; 7] = [
    [TermId(1), TermId(2), TermId(3), TermId(4), TermId(5)],
    [TermId(1), TermId(2), TermId(3), TermId(4), TermId(6)],
    [TermId(1), TermId(2), TermId(3), TermId(7), TermId(5)],
    [TermId(1), TermId(2), TermId(8), TermId(4), TermId(5)],
    [TermId(1), TermId(9), TermId(3), TermId(4), TermId(5)],
    [TermId(0), TermId(2), TermId(3), TermId(4), TermId(5)],
    [TermId(1), TermId(2), TermId(3), TermId(4), TermId(5)],
];

// What is bound, from the last place to the first.
static BOUND: [(u32, TermId); 5] = [
    (4, TermId(5)),
    (3, TermId(4)),
    (2, TermId(3)),
    (1, TermId(2)),
    (0, TermId(1)),
];

// The rows that have the first of these, for each number of them.
static FOUND: [&[u32]; 6] = [
    &[0, 1, 2, 3, 4, 5, 6],
    &[0, 2, 3, 4, 5, 6],
    &[0, 3, 4, 5, 6],
    &[0, 4, 5, 6],
    &[0, 5, 6],
    &[0, 6],
];

// Whether the places go down from 4.
fn goes_down(bound: &[(u32, TermId)]) -> bool
    ensures within { IsTrue result → All (λ b. b.0 < 5) bound.now }
    ensures distinct { IsTrue result → AreDistinct (map (λ b. b.0) bound.now) }
{
    for (at, (place, _)) in bound.iter().enumerate() {
        if at > 4 || *place as usize != 4 - at {
            return false;
        }
    }
    true
}

fn push(rt: &impl Abort, relation: &mut Relation, row: &[TermId]) -> Result<(), Fail> {
    assert!(rt; relation.arity() as usize == row.len());
    assert!(rt; relation.len() < 100);
    relation.push(row)?;
    Ok(())
}

fn found(
    rt: &(impl Abort + AllocGlobal),
    relation: &Relation,
    bound: &[(u32, TermId)],
) -> Result<Vec<u32>, Fail> {
    assert!(rt; relation.arity() == 5);
    assert!(rt; goes_down(bound));
    Ok(select(rt.alloc(), relation, bound)?)
}

#[test]
fn terms_at_some_places(rt: HostRuntime) -> Result<(), Fail> {
    let mut relation = Relation::new(rt.alloc(), 5);
    assert!(rt; relation.is_empty());
    assert!(rt; found(&rt, &relation, &BOUND[..2])?.is_empty());
    for row in &ROWS {
        push(&rt, &mut relation, row)?;
    }
    for (count, want) in FOUND.iter().enumerate() {
        let rows = found(&rt, &relation, BOUND.get(..count).ok_or("too many")?)?;
        assert_eq!(rt; rows.as_slice(), *want, "{count} places");
    }
    assert!(rt; relation.len() == 7);
    assert_eq!(rt; relation.row(3), ROWS[3].as_slice());
    Ok(())
}

#[test]
fn rows_without_members(rt: HostRuntime) -> Result<(), Fail> {
    let mut relation = Relation::new(rt.alloc(), 0);
    push(&rt, &mut relation, &[])?;
    push(&rt, &mut relation, &[])?;
    let rows = select(rt.alloc(), &relation, &[])?;
    assert_eq!(rt; rows.as_slice(), [0, 1].as_slice());
    Ok(())
}

/// An index tells of the rows that were there when it was built.
#[test]
fn rows_by_an_index(rt: HostRuntime) -> Result<(), Fail> {
    let mut relation = Relation::new(rt.alloc(), 5);
    for row in &ROWS {
        push(&rt, &mut relation, row)?;
    }
    assert!(rt; relation.arity() == 5);
    let index = Index::build(rt.alloc(), &relation, [4, 1])?;
    push(&rt, &mut relation, &ROWS[0])?;
    assert_eq!(rt;
        index.matching(&[TermId(5), TermId(2)]),
        [0, 2, 3, 5, 6].as_slice()
    );
    assert_eq!(rt; index.matching(&[TermId(6), TermId(2)]), [1].as_slice());
    assert!(rt; index.matching(&[TermId(2), TermId(5)]).is_empty());
    Ok(())
}
