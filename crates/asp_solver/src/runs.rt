// A call of a solver.
ghost use Rattle.std.specs.Prelude.{◌≡◌, ◌+◌, ◌-◌, ◌<◌, ◌≤◌, ◌⊎◌, ◌≢◌, ℕ, None, length, vec_capacity, IfSome, All};
ghost use Rattle.asp_engine.specs.declared.periods.Period.{Period as Term};
ghost use Rattle.asp_engine.specs.declared.rounds.Ending.{Ending as End};
ghost use Rattle.asp_engine.specs.Answers.{ShowsEnding, Spends, left_of};
ghost use Rattle.asp_engine.specs.Keys.{IsEngine};
ghost use Rattle.asp_engine.specs.Moves.{held_by};
ghost use Rattle.asp_engine.specs.Periods.{AreAscendingIds};
ghost use Rattle.asp_engine.specs.Search.{AreAssumptions};
ghost use Rattle.asp_store.specs.Store.{NoneRefuting};
ghost use Rattle.asp_solver.specs.Answers.{IsRefutedOrMemory, IsRefutedSpentOrMemory, NoneRefuted, ShowsTurn};
ghost use Rattle.asp_solver.specs.Calls.{Did, Leaves};
ghost use Rattle.asp_solver.specs.Holding.{Holds};
ghost use Rattle.asp_solver.specs.Turns.{ShowsEnd, is_found, left_open};
ghost use Rattle.asp_solver.specs.Views.{view_of};

use crate::answers::Turn;
use crate::found::atoms_of;
use crate::queries::open;
use ap_base::Budget;
use asp_engine::{Ending, Engine, Query, search, take_in};
use proof_log::logs_stay_valid;
use search_law::{closed_assignments_are_models, plain_clauses_are_few};
use theory_form::Lit;
use theory_law::{loop_clauses_are_one, models_are_answer_sets, theories_stand};
use theory_model::models_of_beginnings;

// What the end of a search comes to.
fn turn_of(e: &Engine, ending: Ending) -> Turn
    ensures { ShowsEnd e.now ending result }
{
    match ending {
        Ending::Full => match atoms_of(e.parts.alloc, &e.theory, e.parts.store.assignment()) {
            Ok(atoms) => Turn::Found(atoms),
            Err(_) => Turn::Memory,
        },
        Ending::Refuted(number) => Turn::Refuted(number),
        Ending::Spent => Turn::Spent,
        Ending::Again => Turn::Again,
        Ending::Memory => Turn::Memory,
    }
}

// Whether it is a set that was found.
fn is_set(turn: &Turn) -> bool
    ensures { result ≡ is_found turn.now }
{
    match turn {
        Turn::Found(_) => true,
        _ => false,
    }
}

// Puts a query back, unless it is closed.
fn put_back(queries: &mut Vec<Query>, query: Query, turn: &Turn)
    requires { length queries.old.items < vec_capacity queries.old }
    ensures { queries.new.items ≡ left_open queries.old.items query turn.now }
{
    match turn {
        Turn::Found(_) => {}
        Turn::Refuted(_) => {}
        _ => queries.push_reserved(query),
    }
}

// Searches for a query that was taken out of the open ones.
fn search_for(
    e: &mut Engine,
    others: &[Query],
    query: &mut Query,
    budget: &mut Budget,
    quota: Option<u64>,
) -> Turn
    requires engine { IsEngine e.old }
    requires assumptions { AreAssumptions (length e.old.theory.variables) query.old.assume }
    requires ascending { All (λ q. AreAscendingIds q.period.learned) others.now }
    requires quota { IfSome quota (λ q. 0 < q) }
    ensures assume { query.new.assume ≡ query.old.assume }
    ensures spends { Spends (held_by others.now) e.old e.new query.old.period query.new.period budget.old.left budget.new.left }
    ensures end { (ending : End) × ShowsEnding e.new query.old.assume budget.new.left (left_of quota (budget.old.left - budget.new.left)) ending × ShowsEnd e.new ending result }
    ensures at_once { NoneRefuting e.old.parts.store.clauses query.old.assume ⊎ ((budget.new.left ≡ budget.old.left) × IsRefutedOrMemory result) }
    ensures spent { budget.old.left ≡ 0 → IsRefutedSpentOrMemory result }
    ensures again { quota ≡ None → result ≢ Turn.Again }
{
    let ending = search(
        e,
        query.assume.as_slice(),
        &mut query.period,
        others,
        budget,
        quota,
    );
    turn_of(e, ending)
}

/// A call for these assumptions on what a solver consists of.
pub(crate) fn run(
    e: &mut Engine,
    queries: &mut Vec<Query>,
    taken: &mut u64,
    found: &mut bool,
    assume: &[Lit],
    budget: &mut Budget,
    quota: Option<u64>,
) -> Turn
    requires holds { Holds e.old.parts.span e.old queries.old.items taken.old }
    requires span { 0 < e.old.parts.span }
    requires assumptions { AreAssumptions (length e.old.theory.variables) assume.now }
    requires quota { IfSome quota (λ q. 0 < q) }
    ensures holds { Holds e.old.parts.span e.new queries.new.items taken.new }
    ensures turn { ShowsTurn (view_of e.new queries.new.items found.new) assume.now budget.new.left (left_of quota (budget.old.left - budget.new.left)) result }
    ensures did { (n : ℕ) × (period : Term) × (n + budget.new.left ≡ budget.old.left)
        × Did e.old.parts.span (view_of e.old queries.old.items found.old) (view_of e.new queries.new.items found.new) assume.now n period
        × Leaves (view_of e.old queries.old.items found.old) (view_of e.new queries.new.items found.new) assume.now n period result }
    ensures at_once { NoneRefuted (view_of e.old queries.old.items found.old) assume.now ⊎ ((budget.new.left ≡ budget.old.left) × IsRefutedOrMemory result) }
    ensures spent { budget.old.left ≡ 0 → IsRefutedSpentOrMemory result }
    ensures again { quota ≡ None → result ≢ Turn.Again }
{
    closed_assignments_are_models();
    models_of_beginnings();
    models_are_answer_sets();
    logs_stay_valid();
    loop_clauses_are_one();
    plain_clauses_are_few();
    theories_stand();
    *found = false;
    match take_in(e, taken) {
        Ok(()) => {}
        Err(_) => return Turn::Memory,
    }
    let mut query = match open(e.parts.alloc, queries, assume) {
        Ok(query) => query,
        Err(_) => return Turn::Memory,
    };
    let turn = search_for(e, queries.as_slice(), &mut query, budget, quota);
    *taken = e.theory.next_id().0 - 1;
    *found = is_set(&turn);
    put_back(queries, query, &turn);
    turn
}
