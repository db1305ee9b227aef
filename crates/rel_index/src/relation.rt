//! Relations: lists of rows.
ghost use Rattle.std.specs.Prelude.{◌≡◌, ◌+◌, ◌^◌, ◌<◌, ◌↔◌, [], ◌∷◌, ◌++◌, length, All, OnOk, OnErr, IsTrue, slice_get, Some};
ghost use Rattle.rel_index.specs.Rows.{IsRowOf};

use ap_term::TermId;
use std::alloc::{AllocError, Global};
use std::marker::Model;

/// A relation: rows of ground terms, each of the same number of members.
///
/// Contracts see that number and the list of the rows, in the order in which they were pushed. A row that was pushed twice stands
/// there twice. The terms are numbers of one table, which the relation does not look into.
#[derive(Drop)]
pub struct Relation {
    arity: u32,
    count: u32,
    // The members of the rows, one row behind the other.
    ids: Vec<TermId>,
}

impl Model for Relation {
    ghost use Rattle.std.specs.Prelude.{◌≡◌, ◌*◌, length};
    ghost use Rattle.rel_index.specs.Rows.{Table, rows_of};

    ghost Value = { Table };

    ghost view = { λ r. record { arity = r.arity; rows = rows_of r.arity r.count r.ids.items } };

    ghost invariant = { λ r. length r.ids.items ≡ r.count * r.arity };
}

impl Relation {
    /// A relation without rows, whose rows will have this many members.
    pub fn new(alloc: Global, arity: u32) -> Relation
        ensures arity { result.arity ≡ arity }
        ensures rows { result.rows ≡ [] }
    {
        Relation {
            arity,
            count: 0,
            ids: Vec::new(alloc),
        }
    }

    /// How many members each row has.
    pub fn arity(&self) -> u32
        ensures { result ≡ self.now.arity }
    {
        self.arity
    }

    /// How many rows there are, repeated ones counted again.
    pub fn len(&self) -> u32
        ensures { result ≡ length self.now.rows }
    {
        self.count
    }

    /// Whether there is no row.
    pub fn is_empty(&self) -> bool
        ensures { IsTrue result ↔ (self.now.rows ≡ []) }
    {
        self.count == 0
    }

    /// The row at a place, counted from 0, where there is one: the place has to be below `len`.
    pub fn row(&self, place: u32) -> &[TermId]
        requires { place < length self.now.rows }
        ensures row { slice_get self.now.rows place ≡ Some result.now }
        ensures size { IsRowOf self.now.arity result.now }
    {
        let arity = self.arity as usize;
        let start = place as usize * arity;
        &self.ids[start..start + arity]
    }

    /// Puts a row behind the others. It has to have as many members as the arity says, and there have to be fewer than
    /// 4,294,967,295 rows. It fails only where there is no memory for it, and then changes nothing.
    pub fn push(&mut self, row: &[TermId]) -> Result<(), AllocError>
        requires size { IsRowOf self.old.arity row.now }
        requires room { length self.old.rows + 1 < 2 ^ 32 }
        ensures arity { self.new.arity ≡ self.old.arity }
        ensures ok { OnOk result (self.new.rows ≡ self.old.rows ++ row.now ∷ []) }
        ensures err { OnErr result (self.new.rows ≡ self.old.rows) }
    {
        self.ids.extend_from_slice(row)?;
        self.count += 1;
        Ok(())
    }
}
