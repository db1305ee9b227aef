// Rounds of a search.
ghost use Rattle.std.specs.Prelude.{◌≡◌, ◌+◌, ◌≤◌, ◌↔◌, [], true, Bool, Contains, IsTrue, IsFalse, MatchOption};
ghost use Rattle.std.specs.List.{All};
ghost use Rattle.asp_store.specs.Store.{IsRefuting};
ghost use Rattle.asp_engine.specs.Answers.{IsOpen, IsRefuted, ShowsRound, Spends};
ghost use Rattle.asp_engine.specs.Forgetting.{Forgot};
ghost use Rattle.asp_engine.specs.Keys.{IsEngine};
ghost use Rattle.asp_engine.specs.Moves.{held_by};
ghost use Rattle.asp_engine.specs.Periods.{AreAscendingIds};
ghost use Rattle.asp_engine.specs.Search.{IsStuck, ShowsStop};

use crate::additions::add_late;
use crate::descent::{Stop, descend};
use crate::engine::Engine;
use crate::forgetting::forget;
use crate::keeping::number_at;
use crate::learning::advance;
use crate::periods::{Period, Query};
use ap_base::Budget;
use asp_learn::Fault;
use asp_store::Store;
use search_law::models_fall;
use theory_form::{ClauseId, Lit};

/// How a search ends.
#[derive(Clone, Copy, PartialEq, Eq, Debug)]
pub enum Ending {
    Full,
    Refuted(ClauseId),
    Spent,
    Again,
    Memory,
}

/// What a round comes to.
#[derive(Clone, Copy, PartialEq, Eq, Debug)]
pub enum Round {
    Over(Ending),
    On,
}

// Whether a literal is among the assumptions.
fn is_assumed(assume: &[Lit], l: Lit) -> bool
    ensures { IsTrue result ↔ Contains assume.now l }
{
    assume.contains(&l)
}

// Whether every literal of the clause of this key is the opposite of an assumption.
fn is_refuting(s: &Store, key: ClauseId, assume: &[Lit]) -> bool
    ensures yes_is { IsTrue result → IsRefuting s.now.clauses assume.now key.0 }
    ensures no_is { IsFalse result → IsRefuting s.now.clauses assume.now key.0 → ⊥ }
{
    let Some(lits) = s.clause(key) else {
        return false;
    };
    for l in lits {
        if !is_assumed(assume, l.opposite()) {
            return false;
        }
    }
    true
}

// The number of the clause of this key, if it ends the query.
fn judge(e: &Engine, assume: &[Lit], key: ClauseId) -> Option<ClauseId>
    ensures { MatchOption result (IsRefuting e.now.parts.store.clauses assume.now key.0 → ⊥) (λ id. IsRefuted e.now assume.now id.0) }
{
    // Its clauses tell what is true of every store.
    let _assignment = e.parts.store.assignment();
    if is_refuting(&e.parts.store, key, assume) {
        Some(number_at(e.parts.numbers.as_slice(), key))
    } else {
        None
    }
}

// Lets clauses go, where the period of the query ended just now.
fn end_period(e: &mut Engine, period: &Period, others: &[Query])
    requires engine { IsEngine e.old }
    requires ascending { All (λ q. AreAscendingIds q.period.learned) others.now }
    ensures { (ended : Bool) → (period.now.learned ≡ [] → ended ≡ true) → Forgot (held_by others.now) ended e.old e.new }
{
    if period.learned.is_empty() {
        forget(e, others);
    }
}

// A round where every variable has a value.
fn end_round(e: &mut Engine, assume: &[Lit], period: &Period, others: &[Query], left: u64) -> Round
    requires is_open { IsOpen e.old assume.now }
    requires full { ShowsStop e.old.parts.store assume.now Stop.Full }
    ensures spends { Spends (held_by others.now) e.old e.new period.now period.now left left }
    ensures round { ShowsRound e.old e.new assume.now left left result }
{
    models_fall();
    // Its clauses tell what is true of every store.
    let _assignment = e.parts.store.assignment();
    match add_late(e, assume) {
        Err(_) => Round::Over(Ending::Memory),
        Ok(None) => Round::Over(Ending::Full),
        Ok(Some(key)) => match judge(e, assume, key) {
            Some(id) => Round::Over(Ending::Refuted(id)),
            None => Round::On,
        },
    }
}

// A round where the search cannot go on.
fn learn_round(
    e: &mut Engine,
    assume: &[Lit],
    period: &mut Period,
    others: &[Query],
    fault: Fault,
    budget: &mut Budget,
) -> Round
    requires is_open { IsOpen e.old assume.now }
    requires stuck { IsStuck e.old.parts.store assume.now fault }
    requires ascending { All (λ q. AreAscendingIds q.period.learned) others.now }
    ensures spends { Spends (held_by others.now) e.old e.new period.old period.new budget.old.left budget.new.left }
    ensures one { budget.old.left ≤ budget.new.left + 1 }
    ensures round { ShowsRound e.old e.new assume.now budget.old.left budget.new.left result }
{
    models_fall();
    if budget.left == 0 {
        return Round::Over(Ending::Spent);
    }
    let key = match advance(e, assume, period, fault) {
        Ok(key) => key,
        Err(_) => return Round::Over(Ending::Memory),
    };
    budget.left -= 1;
    match judge(e, assume, key) {
        Some(id) => Round::Over(Ending::Refuted(id)),
        None => {
            end_period(e, period, others);
            Round::On
        }
    }
}

// A round: down to where the search stops, and what is to be done there.
pub(crate) fn one_round(
    e: &mut Engine,
    assume: &[Lit],
    period: &mut Period,
    others: &[Query],
    budget: &mut Budget,
) -> Round
    requires is_open { IsOpen e.old assume.now }
    requires ascending { All (λ q. AreAscendingIds q.period.learned) others.now }
    ensures spends { Spends (held_by others.now) e.old e.new period.old period.new budget.old.left budget.new.left }
    ensures one { budget.old.left ≤ budget.new.left + 1 }
    ensures round { ShowsRound e.old e.new assume.now budget.old.left budget.new.left result }
{
    let stop = match descend(&mut e.parts.store, &mut e.parts.branching, assume) {
        Ok(stop) => stop,
        Err(_) => return Round::Over(Ending::Memory),
    };
    match stop {
        Stop::Full => end_round(e, assume, period, others, budget.left),
        Stop::Stuck(fault) => learn_round(e, assume, period, others, fault, budget),
    }
}
