//! The rows of a relation with given terms at some places.
ghost use Rattle.std.specs.Prelude.{◌≡◌, ◌<◌, map, length, All, IfOk};
ghost use Rattle.rel_index.specs.Keys.{AreDistinct, is_same_key, key_of, rows_with};

use crate::index::Index;
use crate::relation::Relation;
use ap_term::TermId;
use std::alloc::{AllocError, Global};

// By an index of as many places as are bound, if that is one of these numbers, and else by a look at each row.
macro_rules! select_by {
    ($alloc:expr, $relation:expr, $bound:expr; $($count:literal),+) => {
        match $bound.len() {
            $($count => select_indexed::<$count>($alloc, $relation, $bound),)+
            _ => select_filtered($alloc, $relation, $bound),
        }
    };
}

/// The places of the rows that have these terms at these places, in ascending order, which is the order in which they were pushed.
/// Places are counted from 0; each has to be below the relation's arity, and none may stand twice. With no place bound these are
/// all rows. It fails only for want of memory.
pub fn select(
    alloc: Global,
    relation: &Relation,
    bound: &[(u32, TermId)],
) -> Result<Vec<u32>, AllocError>
    requires within { All (λ b. b.0 < relation.now.arity) bound.now }
    requires distinct { AreDistinct (map (λ b. b.0) bound.now) }
    ensures { IfOk result (λ found. found.items ≡ rows_with (map (λ b. b.0) bound.now) (map (λ b. b.1) bound.now) relation.now.rows) }
{
    select_by!(alloc, relation, bound; 0, 1, 2, 3, 4)
}

// The same by an index, where `K` places are bound.
fn select_indexed<const K: usize>(
    alloc: Global,
    relation: &Relation,
    bound: &[(u32, TermId)],
) -> Result<Vec<u32>, AllocError>
    requires few { K < 5 }
    requires size { length bound.now ≡ K }
    requires within { All (λ b. b.0 < relation.now.arity) bound.now }
    requires distinct { AreDistinct (map (λ b. b.0) bound.now) }
    ensures { IfOk result (λ found. found.items ≡ rows_with (map (λ b. b.0) bound.now) (map (λ b. b.1) bound.now) relation.now.rows) }
{
    let index = Index::<K>::build(alloc, relation, places_of(bound))?;
    Vec::from_slice(alloc, index.matching(&terms_of(bound)))
}

// The places that are bound.
fn places_of<const K: usize>(bound: &[(u32, TermId)]) -> [u32; K]
    requires { length bound.now ≡ K }
    ensures { result ≡ map (λ b. b.0) bound.now }
{
    let mut places = [0; K];
    for (at, (place, _)) in bound.iter().enumerate() {
        places[at] = *place;
    }
    places
}

// The terms that they are bound to.
fn terms_of<const K: usize>(bound: &[(u32, TermId)]) -> [TermId; K]
    requires { length bound.now ≡ K }
    ensures { result ≡ map (λ b. b.1) bound.now }
{
    let mut key = [TermId(0); K];
    for (at, (_, id)) in bound.iter().enumerate() {
        key[at] = *id;
    }
    key
}

// The same by a look at each row.
fn select_filtered(
    alloc: Global,
    relation: &Relation,
    bound: &[(u32, TermId)],
) -> Result<Vec<u32>, AllocError>
    requires { All (λ b. b.0 < relation.now.arity) bound.now }
    ensures { IfOk result (λ found. found.items ≡ rows_with (map (λ b. b.0) bound.now) (map (λ b. b.1) bound.now) relation.now.rows) }
{
    let mut found = Vec::new(alloc);
    for place in 0..relation.len() {
        if has_members(relation.row(place), bound) {
            found.push(place)?;
        }
    }
    Ok(found)
}

// Whether a row has these terms at these places.
fn has_members(row: &[TermId], bound: &[(u32, TermId)]) -> bool
    requires { All (λ b. b.0 < length row.now) bound.now }
    ensures { result ≡ is_same_key (key_of (map (λ b. b.0) bound.now) row.now) (map (λ b. b.1) bound.now) }
{
    for (place, id) in bound {
        if row[*place as usize] != *id {
            return false;
        }
    }
    true
}
