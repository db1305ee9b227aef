// A search under assumptions.
ghost use Rattle.std.specs.Prelude.{◌≡◌, ◌≢◌, ◌-◌, ◌<◌, ◌≤◌, ◌⊎◌, ◌↔◌, None, length, IfSome, IsTrue};
ghost use Rattle.std.specs.List.{All};
ghost use Rattle.asp_store.specs.Store.{NoneRefuting};
ghost use Rattle.asp_engine.specs.Answers.{IsRefutedOrMemory, IsRefutedSpentOrMemory, ShowsEnding, Spends, left_of};
ghost use Rattle.asp_engine.specs.Keys.{IsEngine};
ghost use Rattle.asp_engine.specs.Moves.{held_by};
ghost use Rattle.asp_engine.specs.Periods.{AreAscendingIds};
ghost use Rattle.asp_engine.specs.Search.{AreAssumptions};

use crate::descent::go_back;
use crate::engine::Engine;
use crate::keeping::number_at;
use crate::periods::{Period, Query};
use crate::rounds::{Ending, Round, one_round};
use ap_base::Budget;
use theory_form::Lit;

// Whether so many learned clauses use the quota up.
fn is_used_up(quota: Option<u64>, learned: u64) -> bool
    ensures { IsTrue result ↔ (left_of quota learned ≡ 0) }
{
    match quota {
        Some(most) => most <= learned,
        None => false,
    }
}

// Searches on from level 0, where no clause holds negated assumptions alone.
fn search_on(
    e: &mut Engine,
    assume: &[Lit],
    period: &mut Period,
    others: &[Query],
    budget: &mut Budget,
    quota: Option<u64>,
) -> Ending
    requires engine { IsEngine e.old }
    requires assumptions { AreAssumptions (length e.old.theory.variables) assume.now }
    requires none { NoneRefuting e.old.parts.store.clauses assume.now }
    requires ascending { All (λ q. AreAscendingIds q.period.learned) others.now }
    requires quota { IfSome quota (λ q. 0 < q) }
    ensures spends { Spends (held_by others.now) e.old e.new period.old period.new budget.old.left budget.new.left }
    ensures ending { ShowsEnding e.new assume.now budget.new.left (left_of quota (budget.old.left - budget.new.left)) result }
{
    go_back(&mut e.parts.store, &mut e.parts.branching, 0);
    let start = budget.left;
    'search: loop {
        match one_round(e, assume, period, others, budget) {
            Round::Over(ending) => return ending,
            Round::On => {}
        }
        if is_used_up(quota, start - budget.left) {
            return Ending::Again;
        }
    }
}

/// Searches a model in which every assumption of the query is true, until `quota` clauses were learned in this call, if there is a quota.
///
/// * `Full`: the assignment of the store is total, all assumptions are true in it, and nothing is wrong with it.
/// * `Refuted`: the kept clause of this number holds negated assumptions alone. A call at whose entry there is such a clause learns nothing.
/// * `Spent`: the budget is used up, and no kept clause is so. A call with no budget left is `Refuted` or `Spent`.
/// * `Again`: the quota is used up, and no kept clause is so.
/// * `Memory`: memory ran out. The search can go on with the next call.
pub fn search(
    e: &mut Engine,
    assume: &[Lit],
    period: &mut Period,
    others: &[Query],
    budget: &mut Budget,
    quota: Option<u64>,
) -> Ending
    requires engine { IsEngine e.old }
    requires assumptions { AreAssumptions (length e.old.theory.variables) assume.now }
    requires ascending { All (λ q. AreAscendingIds q.period.learned) others.now }
    requires quota { IfSome quota (λ q. 0 < q) }
    ensures spends { Spends (held_by others.now) e.old e.new period.old period.new budget.old.left budget.new.left }
    ensures ending { ShowsEnding e.new assume.now budget.new.left (left_of quota (budget.old.left - budget.new.left)) result }
    ensures at_once { NoneRefuting e.old.parts.store.clauses assume.now ⊎ ((budget.new.left ≡ budget.old.left) × IsRefutedOrMemory result) }
    ensures spent { budget.old.left ≡ 0 → IsRefutedSpentOrMemory result }
    ensures again { quota ≡ None → result ≢ Ending.Again }
{
    // Its clauses tell what is true of every store.
    let _assignment = e.parts.store.assignment();
    if let Some(key) = e.parts.store.refuting(assume) {
        return Ending::Refuted(number_at(e.parts.numbers.as_slice(), key));
    }
    if budget.left == 0 {
        return Ending::Spent;
    }
    search_on(e, assume, period, others, budget, quota)
}
