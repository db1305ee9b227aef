//! A tuple with all its conditions.
ghost use Rattle.std.specs.Prelude.{◌≡◌, IfOk, OnOk};

use crate::pair::Pair;
use ap_term::Args;
use sqlite_items::Items;
use std::alloc::{AllocError, Global};

/// A tuple with the conditions under which it counts.
#[derive(Debug, Drop)]
pub struct TupleRow {
    /// The members of the tuple, from first to last.
    pub tuple: Args,
    /// The conditions, of which at least one has to hold. Each is a list of literals: an atom's number, and its negative for
    /// `not`.
    pub conditions: Items<Items<i64>>,
}

impl TupleRow {
    ghost use Rattle.ground_agg.specs.Rows.{row_of, with_condition};

    // The row of one pair.
    pub(crate) fn of(alloc: Global, pair: &Pair) -> Result<TupleRow, AllocError>
        ensures { IfOk result (λ row. row ≡ row_of pair.now) }
    {
        let tuple = Args::from_vec(Vec::from_slice(alloc, pair.tuple.as_slice())?);
        let mut conditions = Items::new(alloc);
        conditions.push(Items::from_slice(alloc, pair.condition.as_slice())?)?;
        Ok(TupleRow { tuple, conditions })
    }

    // Puts the condition of a pair behind the others.
    pub(crate) fn push(&mut self, alloc: Global, pair: &Pair) -> Result<(), AllocError>
        ensures { OnOk result (self.new ≡ with_condition self.old pair.now) }
    {
        self.conditions
            .push(Items::from_slice(alloc, pair.condition.as_slice())?)
    }
}
