//! The distinct tuples among pairs that were found, with their distinct conditions.
ghost use Rattle.std.specs.Prelude.{◌≡◌, ◌<◌, All, IfOk, OnOk, IsErrOf};
ghost use Rattle.ground_agg.specs.Gathered.{IsPairOf, IsGathered, HasMoreThan};

use crate::fault::AggFault;
use crate::grouping::rows_of;
use crate::merging::in_order;
use crate::pair::Pair;
use crate::row::TupleRow;
use ap_term::Terms;
use std::alloc::Global;

// No grounding has more pairs of a tuple and a condition.
const MAX_PAIRS: usize = 1_000_000;

/// The distinct tuples, in the order of terms, each with its distinct conditions, in the order of lists of literals.
///
/// Tuples are values: one with fewer members comes first, and then their members decide from first to last. Two tuples are
/// the same where their lists of numbers are, since a table has one number for each value. Literals are in order by their
/// atoms, the positive one first; lists member by member, a proper prefix first.
///
/// The members of each tuple have to be values of the table, and each condition has to be a set, its literals in order and
/// each once: `are_in_order` tells whether they are.
///
/// `TooMany` exactly where more than 1,000,000 different pairs of a tuple and a condition were found: a pair that was found
/// again is counted once. `Memory` for want of memory alone.
pub fn gather(alloc: Global, terms: &Terms, found: &[Pair]) -> Result<Vec<TupleRow>, AggFault>
    requires { All (IsPairOf terms.now) found.now }
    ensures gathered { IfOk result (λ rows. IsGathered terms.now found.now rows.items) }
    ensures few { OnOk result (HasMoreThan 1000000 found.now → ⊥) }
    ensures too_many { IsErrOf result AggFault.TooMany → HasMoreThan 1000000 found.now }
{
    let _ = terms.len(); // a table has one number for each value
    let Ok(pairs) = in_order(alloc, terms, found) else {
        return Err(AggFault::Memory);
    };
    if pairs.len() > MAX_PAIRS {
        return Err(AggFault::TooMany);
    }
    let Ok(rows) = rows_of(alloc, &pairs) else {
        return Err(AggFault::Memory);
    };
    Ok(rows)
}
