// The ends of a row's sum, kept by a caller.
ghost use Rattle.std.specs.Prelude.{◌≡◌, ◌<◌, ◌≤◌, ℕ, Bool, Option, All, length, slice_index_or, unsigned_abs, pos};
ghost use Rattle.theory_form.specs.declared.literals.Var.{Var as Variable};
ghost use Rattle.theory_form.specs.Kinds.{IsRow};
ghost use Rattle.theory_form.specs.Truth.{value_of};
ghost use Rattle.agg_nogoods.specs.Kept.{AreEndsOf, variable_of, with_value};

use crate::ends::{Ends, ends_of};
use theory_form::{Assignment, SumRow, Var};

/// What the sum of a row comes to at least and at most by the values that are known so far. A caller keeps one beside a row and tells it
/// of each variable that gets or loses a value, so that the row is not added up anew at each look.
#[derive(Clone, Copy, Debug, PartialEq, Eq)]
pub struct RowEnds {
    /// The least sum of the weights whose variables are true.
    pub least: i64,
    /// The greatest one.
    pub greatest: i64,
    /// No weight of the row is further from 0 than this.
    pub heaviest: u64,
}

impl RowEnds {
    /// The ends of the row under the assignment, in time linear in the row.
    ///
    /// Condition: the row is one of a theory (distinct variables, weights whose absolute values add up to less than 2^52).
    pub fn of(row: &SumRow, a: &Assignment) -> RowEnds
        requires { IsRow row.now.terms row.now.bound }
        ensures { AreEndsOf (value_of a.now) row.now result }
    {
        let ends = ends_of(row.terms.as_slice(), a);
        RowEnds {
            least: ends.least,
            greatest: ends.greatest,
            heaviest: heaviest(row.terms.as_slice()),
        }
    }

    /// The variable of the term at this place of the row, counted from 0, had the value `from`, or none, and has `to` now. It takes
    /// constant time.
    ///
    /// Condition: these are the ends of the row for some values of the variables among which that variable has `from`.
    pub fn change(&mut self, row: &SumRow, term: usize, from: Option<bool>, to: Option<bool>)
        requires row { IsRow row.now.terms row.now.bound }
        requires term { term < length row.now.terms }
        requires ends { (known : ℕ → Option Bool) × AreEndsOf known row.now self.old × (known (variable_of row.now.terms term) ≡ from) }
        ensures { (known : ℕ → Option Bool) → AreEndsOf known row.now self.old → known (variable_of row.now.terms term) ≡ from
            → AreEndsOf (with_value known (variable_of row.now.terms term) to) row.now self.new }
    {
        let (weight, _) = row.terms.as_slice()[term];
        let ends = Ends {
            least: self.least,
            greatest: self.greatest,
        };
        let ends = ends.with_change(weight, from, to);
        self.least = ends.least;
        self.greatest = ends.greatest;
    }
}

// A number that no weight is further from 0 than.
fn heaviest(terms: &[(i64, Var)]) -> u64
    ensures { All (λ t. unsigned_abs t.0 ≤ result) terms.now }
{
    let mut most = 0;
    for (weight, _) in terms {
        most = weight.unsigned_abs().max(most);
    }
    most
}
