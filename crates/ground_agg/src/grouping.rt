//! Pairs in order as rows.
ghost use Rattle.std.specs.Prelude.{◌≡◌, map, IfOk};
ghost use Rattle.ground_agg.specs.Rows.{rows_of};

use crate::pair::Pair;
use crate::row::TupleRow;
use std::alloc::{AllocError, Global};
use std::mem;

// The rows of pairs, where those of one tuple stand together.
pub(crate) fn rows_of(alloc: Global, pairs: &[&Pair]) -> Result<Vec<TupleRow>, AllocError>
    ensures { IfOk result (λ rows. rows.items ≡ rows_of (map (λ p. p.now) pairs.now)) }
{
    let mut rows = Vec::new(alloc);
    let Some((first, rest)) = pairs.split_first() else {
        return Ok(rows);
    };
    let mut row = TupleRow::of(alloc, first)?;
    for pair in rest {
        if pair.tuple == row.tuple {
            row.push(alloc, pair)?;
        } else {
            let next = TupleRow::of(alloc, pair)?;
            rows.push(mem::replace(&mut row, next))?;
        }
    }
    rows.push(row)?;
    Ok(rows)
}
