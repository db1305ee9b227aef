//! Rows by the terms at some places.
ghost use Rattle.std.specs.Prelude.{◌≡◌, ℕ, ◌-◌, ◌^◌, ◌<◌, ◌≤◌, List, length, take, drop, All, IfOk};
ghost use Rattle.std.specs.List.{zip};
ghost use Rattle.std.specs.List.Sorted.{IsSorted, IsSortedByKey};
ghost use Rattle.std.specs.Ordering.{is_lt, is_le};
ghost use Rattle.ap_term.specs.declared.shape.TermId.{TermId as Id};
ghost use Rattle.rel_index.specs.Keys.{AreDistinct, key_cmp, key_of, keyed_from, places_beside, rows_with};

use crate::relation::Relation;
use ap_term::TermId;
use std::alloc::{AllocError, Global};
use std::marker::Model;

/// The rows of a relation by the terms that stand at `K` places of them, as the rows were when the index was built.
///
/// Contracts see the keys of the rows, each with the place of its row, in some order.
#[derive(Drop)]
pub struct Index<const K: usize> {
    // The keys of the rows, in ascending order.
    keys: Vec<[TermId; K]>,
    // The place of the row of each key. Those of one key ascend.
    places: Vec<u32>,
}

impl<const K: usize> Model for Index<K> {
    ghost use Rattle.std.specs.Prelude.{◌≡◌, ℕ, List, length};
    ghost use Rattle.std.specs.List.{zip};
    ghost use Rattle.std.specs.List.Sorted.{IsSorted};
    ghost use Rattle.std.specs.Coded.{coded_list, coded×, coded_ℕ};
    ghost use Rattle.ap_term.specs.declared.shape.TermId.{TermId as Id};
    ghost use Rattle.ap_term.specs.contracts.shape.TermId.{the_row};
    ghost use Rattle.rel_index.specs.Keys.{key_cmp};

    ghost Value = { List (List Id × ℕ) };

    ghost coded = { coded_list (coded× (coded_list the_row.coded) coded_ℕ) };

    ghost view = { λ x. zip x.keys.items x.places.items };

    ghost invariant = { λ x. IsSorted key_cmp x.keys.items × (length x.keys.items ≡ length x.places.items) };
}

impl<const K: usize> Index<K> {
    /// The index of a relation by these places, which are counted from 0. They have to be fewer than 4,294,967,296, each below the
    /// relation's arity, and none may stand twice. It fails only for want of memory.
    pub fn build(
        alloc: Global,
        relation: &Relation,
        places: [u32; K],
    ) -> Result<Index<K>, AllocError>
        requires few { K < 2 ^ 32 }
        requires within { All (λ p. p < relation.now.arity) places }
        requires distinct { AreDistinct places }
        ensures { IfOk result (λ index. (key : List Id) → places_beside key index ≡ rows_with places.entry key relation.now.rows) }
    {
        let mut entries = keyed_rows(alloc, relation, &places)?;
        entries.sort_by_key(
            |entry: &([TermId; K], u32)| -> [TermId; K]
                ensures { result ≡ entry.now.0 }
            { entry.0 },
        )?;
        Index::from_sorted(alloc, &entries)
    }

    /// The places of the rows with this key, its terms in the order of the places with which the index was built: ascending, which
    /// is the order in which the rows were pushed.
    pub fn matching(&self, key: &[TermId; K]) -> &[u32]
        ensures { result.now ≡ places_beside key.now self.now }
    {
        let (from, to) = range_of(&self.keys, key);
        &self.places[from..to]
    }

    // The index of these keys and places, which are in ascending order of the keys.
    fn from_sorted(alloc: Global, entries: &[([TermId; K], u32)]) -> Result<Index<K>, AllocError>
        requires { IsSortedByKey (λ e. e.0) key_cmp entries.now }
        ensures { IfOk result (λ index. index ≡ entries.now) }
    {
        let mut keys = Vec::with_capacity(alloc, entries.len())?;
        let mut places = Vec::with_capacity(alloc, entries.len())?;
        for (key, place) in entries {
            keys.push(*key)?;
            places.push(*place)?;
        }
        Ok(Index { keys, places })
    }
}

// Where the keys that are the same as this one begin and end.
fn range_of<const K: usize>(keys: &[[TermId; K]], key: &[TermId; K]) -> (usize, usize)
    requires { IsSorted key_cmp keys.now }
    ensures ordered { result.0 ≤ result.1 }
    ensures within { result.1 ≤ length keys.now }
    ensures exact { (places : List ℕ) → length keys.now ≡ length places → take (result.1 - result.0) (drop result.0 places) ≡ places_beside key.now (zip keys.now places) }
{
    let from = keys.partition_point(
        |k: &[TermId; K]| -> bool
            ensures { result ≡ is_lt (key_cmp k.now key.entry.now) }
        { k.cmp(key).is_lt() },
    );
    let to = keys.partition_point(
        |k: &[TermId; K]| -> bool
            ensures { result ≡ is_le (key_cmp k.now key.entry.now) }
        { k.cmp(key).is_le() },
    );
    (from, to)
}

// The key of each row, with the place of the row.
fn keyed_rows<const K: usize>(
    alloc: Global,
    relation: &Relation,
    places: &[u32; K],
) -> Result<Vec<([TermId; K], u32)>, AllocError>
    requires { All (λ p. p < relation.now.arity) places.now }
    ensures { IfOk result (λ entries. entries.items ≡ keyed_from 0 places.now relation.now.rows) }
{
    let mut entries = Vec::with_capacity(alloc, relation.len() as usize)?;
    for place in 0..relation.len() {
        entries.push((key_at(relation.row(place), places), place))?;
    }
    Ok(entries)
}

// The members of a row at some places.
fn key_at<const K: usize>(row: &[TermId], places: &[u32; K]) -> [TermId; K]
    requires { All (λ p. p < length row.now) places.now }
    ensures { result ≡ key_of places.now row.now }
{
    let mut key = [TermId(0); K];
    for (at, place) in places.iter().enumerate() {
        key[at] = row[*place as usize];
    }
    key
}
