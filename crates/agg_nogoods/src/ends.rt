// The ends of a sum.
ghost use Rattle.std.specs.Prelude.{◌≡◌, ◌+◌, ◌<◌, ◌≤◌, ◌^◌, ◌+ℤ◌, ◌-ℤ◌, unsigned_abs, sum_by};
ghost use Rattle.agg_nogoods.specs.Ends.{least_share, greatest_share, least_end, greatest_end};

use crate::known::Known;
use theory_form::Var;

// What a sum comes to at least and at most.
#[derive(Clone, Copy)]
pub(crate) struct Ends {
    pub(crate) least: i64,
    pub(crate) greatest: i64,
}

impl Ends {
    // The ends of the sum with one more term of this weight, by the value of its variable.
    fn with_term(self, value: Option<bool>, weight: i64) -> Ends
        requires room_least { unsigned_abs self.least + unsigned_abs weight < 2 ^ 52 }
        requires room_greatest { unsigned_abs self.greatest + unsigned_abs weight < 2 ^ 52 }
        ensures least { result.least ≡ self.least +ℤ least_share value weight }
        ensures greatest { result.greatest ≡ self.greatest +ℤ greatest_share value weight }
    {
        let share = share_of(value, weight);
        Ends {
            least: self.least + share.least,
            greatest: self.greatest + share.greatest,
        }
    }

    // The ends of the sum where the variable of a term of this weight has the value `to` in place of `from`.
    pub(crate) fn with_change(self, weight: i64, from: Option<bool>, to: Option<bool>) -> Ends
        requires small_least { unsigned_abs self.least < 2 ^ 52 }
        requires small_greatest { unsigned_abs self.greatest < 2 ^ 52 }
        requires small_weight { unsigned_abs weight < 2 ^ 52 }
        ensures least { result.least ≡ self.least +ℤ (least_share to weight -ℤ least_share from weight) }
        ensures greatest { result.greatest ≡ self.greatest +ℤ (greatest_share to weight -ℤ greatest_share from weight) }
    {
        let (before, after) = (share_of(from, weight), share_of(to, weight));
        Ends {
            least: moved(self.least, before.least, after.least),
            greatest: moved(self.greatest, before.greatest, after.greatest),
        }
    }
}

// An end with another share of a term.
fn moved(end: i64, before: i64, after: i64) -> i64
    requires end { unsigned_abs end < 2 ^ 52 }
    requires before { unsigned_abs before < 2 ^ 52 }
    requires after { unsigned_abs after < 2 ^ 52 }
    ensures { result ≡ end +ℤ (after -ℤ before) }
{
    end + (after - before)
}

// What a term of this weight adds, by the value of its variable.
fn share_of(value: Option<bool>, weight: i64) -> Ends
    ensures least { result.least ≡ least_share value weight }
    ensures greatest { result.greatest ≡ greatest_share value weight }
    ensures small_least { unsigned_abs result.least ≤ unsigned_abs weight }
    ensures small_greatest { unsigned_abs result.greatest ≤ unsigned_abs weight }
{
    let (least, greatest) = match value {
        Some(true) => (weight, weight),
        Some(false) => (0, 0),
        None => (weight.min(0), weight.max(0)),
    };
    Ends { least, greatest }
}

// The ends of the sum of the weights whose variables are true, where some values are known.
pub(crate) fn ends_of<K: Known>(terms: &[(i64, Var)], known: &K) -> Ends
    requires { sum_by (λ t. unsigned_abs t.0) terms.now < 2 ^ 52 }
    ensures least { result.least ≡ least_end (K.known known.now) terms.now }
    ensures greatest { result.greatest ≡ greatest_end (K.known known.now) terms.now }
    ensures small_least { unsigned_abs result.least < 2 ^ 52 }
    ensures small_greatest { unsigned_abs result.greatest < 2 ^ 52 }
{
    let mut ends = Ends {
        least: 0,
        greatest: 0,
    };
    for (weight, var) in terms {
        ends = ends.with_term(known.value(*var), *weight);
    }
    ends
}
