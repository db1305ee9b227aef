// Which two literals of a clause to watch.
ghost use Rattle.std.specs.Prelude.{◌≡◌, ◌≢◌, ◌<◌, ◌⊎◌, length, slice_get, Some, IsTrue};
ghost use Rattle.theory_form.specs.Truth.{FreeAt, TwoFree};
ghost use Rattle.asp_store.specs.Watch.{ChoiceOk, IsPlaced, is_lit, watches_lit};

use crate::lits::Lits;
use theory_form::{Assignment, Lit, Sight, look};

/// A clause with its two watched places, which stand before the literals. The literals never move; a clause of one literal
/// is watched at it twice.
#[derive(Drop)]
pub struct Kept {
    pub first: usize,
    pub second: usize,
    pub clause: Lits,
}

impl Kept {
    /// Whether the clause watches a literal.
    pub fn has_watch(&self, l: Lit) -> bool
        ensures { result ≡ watches_lit (Some self.now) l }
    {
        let c = self.clause.as_slice();
        stands_at(c, self.first, l) || stands_at(c, self.second, l)
    }
}

// Whether a literal stands at a place of a clause.
fn stands_at(c: &[Lit], i: usize, l: Lit) -> bool
    ensures { result ≡ is_lit (slice_get c.now i) l }
{
    match c.get(i) {
        Some(x) => *x == l,
        None => false,
    }
}

/// What to do with a clause: nothing, since the literal at a place is true or both watched ones have no value; watch two
/// places; assign the literal at a place and watch two; or nothing helps.
#[derive(Clone, Copy, PartialEq, Eq, Debug)]
pub enum Choice {
    Stay(usize),
    Watch(usize, usize),
    Assign(usize, usize, usize),
    Clash,
}

/// Chooses places for a clause, unless the two that are watched will do.
pub fn choose(a: &Assignment, k: &Kept) -> Choice
    requires { IsPlaced k.now }
    ensures { ChoiceOk a.now k.now result }
{
    let c = k.clause.as_slice();
    if c.len() == 0 {
        return Choice::Clash;
    }
    choose_watched(a, k)
}

// Chooses places for a clause that has some.
fn choose_watched(a: &Assignment, k: &Kept) -> Choice
    requires first_in { k.now.first < length k.now.clause }
    requires second_in { k.now.second < length k.now.clause }
    ensures { ChoiceOk a.now k.now result }
{
    let c = k.clause.as_slice();
    if a.is_true(c[k.first]) {
        return Choice::Stay(k.first);
    }
    if a.is_true(c[k.second]) {
        return Choice::Stay(k.second);
    }
    if are_free(a, c, k.first, k.second) {
        return Choice::Stay(k.first);
    }
    choose_new(a, k)
}

// Whether two places differ and their literals have no value.
fn are_free(a: &Assignment, c: &[Lit], i: usize, j: usize) -> bool
    requires first_in { i < length c.now }
    requires second_in { j < length c.now }
    ensures first { IsTrue result → FreeAt a.now c.now i }
    ensures second { IsTrue result → FreeAt a.now c.now j }
    ensures apart { IsTrue result → i ≢ j }
{
    i != j && a.is_free(c[i]) && a.is_free(c[j])
}

// Chooses new places for a clause none of whose two watched literals is true.
fn choose_new(a: &Assignment, k: &Kept) -> Choice
    requires first_in { k.now.first < length k.now.clause }
    requires second_in { k.now.second < length k.now.clause }
    ensures { ChoiceOk a.now k.now result }
{
    match look(a, k.clause.as_slice()) {
        Sight::True(j) => Choice::Stay(j),
        Sight::Wide(i, j) => keep_one(a, k, i, j),
        Sight::Single(i) => {
            if i == k.second {
                return Choice::Assign(i, k.first, k.second);
            }
            Choice::Assign(i, i, k.second)
        }
        Sight::Empty => Choice::Clash,
    }
}

// Watches two literals without a value, of which one is watched already where there is such a one.
fn keep_one(a: &Assignment, k: &Kept, i: usize, j: usize) -> Choice
    requires first_in { k.now.first < length k.now.clause }
    requires second_in { k.now.second < length k.now.clause }
    requires wide { TwoFree a.now k.now.clause i j }
    ensures { ChoiceOk a.now k.now result }
{
    let c = k.clause.as_slice();
    if a.is_free(c[k.second]) {
        let first = another(i, j, k.second);
        return Choice::Watch(first, k.second);
    }
    if a.is_free(c[k.first]) {
        let second = another(i, j, k.first);
        return Choice::Watch(k.first, second);
    }
    Choice::Watch(i, j)
}

// One of two places, but not the one that is taken.
fn another(i: usize, j: usize, taken: usize) -> usize
    requires { i < j }
    ensures one { (result ≡ i) ⊎ (result ≡ j) }
    ensures free { result ≢ taken }
{
    if i == taken { j } else { i }
}
