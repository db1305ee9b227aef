// Learning: a clause that follows goes into the log and the store, and into the period of the query.
ghost use Rattle.std.specs.Prelude.{◌≡◌, ◌<◌, ◌⊎◌, length, map, slice_index_or, IfOk, OnErr, OnOk};
ghost use Rattle.theory_form.specs.declared.literals.ClauseId.{ClauseId as Id};
ghost use Rattle.theory_form.specs.Hints.{FollowsByHints};
ghost use Rattle.theory_model.specs.Whole.{AreOver};
ghost use Rattle.asp_trail.specs.Trail.{level_of};
ghost use Rattle.asp_store.specs.Store.{Adds, IsConflict, NoneRefuting, assigned, clause_at};
ghost use Rattle.asp_learn.specs.Conflicts.{IsWellFormed};
ghost use Rattle.proof_log.specs.declared.steps.Step.TheVariants.{Learn};
ghost use Rattle.proof_log.specs.Logs.{IsNew};
ghost use Rattle.proof_log.specs.States.{StateView};
ghost use Rattle.asp_engine.specs.Keys.{IsEngine, IsIn};
ghost use Rattle.asp_engine.specs.Learning.{HasLearned, IsIdle, Learns, LearnsInto, Stays};
ghost use Rattle.asp_engine.specs.Search.{AreAssumptions, IsFinal, IsStuck, Stands};

use crate::descent::go_back;
use crate::engine::Engine;
use crate::keeping::{keep, number_at};
use crate::periods::Period;
use asp_branching::{Branching, Restarts};
use asp_learn::{Fault, analyse, blame};
use proof_log::Step;
use sqlite_items::Items;
use std::alloc::{AllocError, Global};
use theory_form::{Clause, ClauseId, Lit, Var};

// So many clauses of loops and sums may be added after each learned clause while the assignment is not total: 2^40.
const EAGER: u64 = 1_099_511_627_776;

// The numbers of keys.
fn numbers_of(
    alloc: Global,
    numbers: &[ClauseId],
    keys: &[ClauseId],
) -> Result<Vec<ClauseId>, AllocError>
    ensures { IfOk result (λ list. list.items ≡ map (λ (k : Id). slice_index_or numbers.now k.0 (record { 0 = 0 })) keys.now) }
{
    let mut list = Vec::new(alloc);
    for key in keys {
        list.push(number_at(numbers, *key))?;
    }
    Ok(list)
}

// The step that learns a clause by the clauses of these keys.
fn learn_step(
    alloc: Global,
    numbers: &[ClauseId],
    clause: &Clause,
    keys: &[ClauseId],
) -> Result<Step, AllocError>
    ensures { IfOk result (λ step. step ≡ Learn clause.now (map (λ (k : Id). slice_index_or numbers.now k.0 (record { 0 = 0 })) keys.now)) }
{
    let hints = numbers_of(alloc, numbers, keys)?;
    let lits = clause.copy(alloc)?;
    Ok(Step::Learn {
        lits,
        hints: Items::from_vec(hints),
    })
}

// Logs and keeps a clause that follows by the clauses of these keys.
fn keep_learned(e: &mut Engine, clause: &Clause, keys: &[ClauseId]) -> Result<ClauseId, AllocError>
    requires engine { IsEngine e.old }
    requires follows { FollowsByHints (clause_at e.old.parts.store.clauses) e.old.parts.store.places clause.now keys.now }
    requires well_formed { IsWellFormed clause.now }
    requires is_new { IsNew (clause_at e.old.parts.store.clauses) clause.now }
    requires over { AreOver (length e.old.theory.variables) clause.now }
    ensures store { e.new.parts.store ≡ record e.old.parts.store { clauses = e.new.parts.store.clauses; next_key = e.new.parts.store.next_key } }
    ensures variables { e.new.theory.variables ≡ e.old.theory.variables }
    ensures added { IfOk result (λ key. Adds e.old.parts.store.clauses e.new.parts.store.clauses key.0 clause.now) }
    ensures learned { OnOk result ((v : StateView) → IsIn e.old v → Learns e.old e.new clause.now v) }
    ensures err { OnErr result (Stays e.old e.new) }
{
    let step = match learn_step(e.parts.alloc, e.parts.numbers.as_slice(), clause, keys) {
        Ok(step) => step,
        Err(want) => return Err(want),
    };
    match keep(e, clause, step) {
        Ok(key) => Ok(key),
        Err(want) => Err(want),
    }
}

// The same, and the clause goes into the period of the query, which may end.
fn learn_clause(
    e: &mut Engine,
    period: &mut Period,
    clause: &Clause,
    keys: &[ClauseId],
) -> Result<ClauseId, AllocError>
    requires engine { IsEngine e.old }
    requires follows { FollowsByHints (clause_at e.old.parts.store.clauses) e.old.parts.store.places clause.now keys.now }
    requires well_formed { IsWellFormed clause.now }
    requires is_new { IsNew (clause_at e.old.parts.store.clauses) clause.now }
    requires over { AreOver (length e.old.theory.variables) clause.now }
    ensures store { e.new.parts.store ≡ record e.old.parts.store { clauses = e.new.parts.store.clauses; next_key = e.new.parts.store.next_key } }
    ensures variables { e.new.theory.variables ≡ e.old.theory.variables }
    ensures learned { IfOk result (λ key. LearnsInto e.old e.new period.old period.new clause.now key.0) }
    ensures idle { OnErr result (IsIdle e.old e.new period.old period.new) }
{
    if period.number == u64::MAX {
        return Err(AllocError);
    }
    if let Err(want) = period.enter(e.theory.next_id()) {
        return Err(want);
    }
    let key = match keep_learned(e, clause, keys) {
        Ok(key) => key,
        Err(want) => {
            period.leave();
            return Err(want);
        }
    };
    period.turn(e.parts.alloc, e.parts.span);
    e.parts.eager = EAGER;
    e.parts.pool.note(key, clause.lits().len());
    Ok(key)
}

// Tells branching which variables a conflict came from.
fn bump(branching: &mut Branching, seen: &[Var]) {
    for v in seen {
        branching.bump(*v);
    }
    branching.decay();
}

// The level to go back to: the one that was found, or 0 where the search is to start again.
fn target(restarts: &mut Restarts, level: u64) -> u64
    ensures { (result ≡ 0) ⊎ (result ≡ level) }
{
    if restarts.is_due() { 0 } else { level }
}

// Learns from a clause that is false where a level is open, and goes back to where the learned clause is unit, or to level 0.
pub(crate) fn learn(
    e: &mut Engine,
    assume: &[Lit],
    period: &mut Period,
    conflict: ClauseId,
) -> Result<ClauseId, AllocError>
    requires engine { IsEngine e.old }
    requires level { 0 < level_of e.old.parts.store.entries }
    requires conflict { IsConflict e.old.parts.store.clauses (assigned e.old.parts.store) conflict.0 }
    requires stands { Stands e.old.parts.store.clauses e.old.parts.store.places assume.now e.old.parts.store.entries }
    ensures places { e.new.parts.store.places ≡ e.old.parts.store.places }
    ensures variables { e.new.theory.variables ≡ e.old.theory.variables }
    ensures learned { IfOk result (λ key. HasLearned e.old e.new assume.now period.old period.new key.0) }
    ensures idle { OnErr result (IsIdle e.old e.new period.old period.new) }
{
    // Its clauses tell what is true of every store.
    let _assignment = e.parts.store.assignment();
    let learned = match analyse(e.parts.alloc, &e.parts.store, conflict, &mut e.parts.marks) {
        Ok(learned) => learned,
        Err(want) => return Err(want),
    };
    bump(&mut e.parts.branching, learned.seen.as_slice());
    let level = target(&mut e.parts.restarts, learned.level);
    go_back(&mut e.parts.store, &mut e.parts.branching, level);
    match learn_clause(e, period, &learned.clause, learned.hints.as_slice()) {
        Ok(key) => Ok(key),
        Err(want) => Err(want),
    }
}

// Learns a clause of opposites of assumptions, where an assumption is false or a clause is false at level 0.
pub(crate) fn refute(
    e: &mut Engine,
    assume: &[Lit],
    period: &mut Period,
    fault: Fault,
) -> Result<ClauseId, AllocError>
    requires engine { IsEngine e.old }
    requires assumptions { AreAssumptions (length e.old.theory.variables) assume.now }
    requires fault { IsFinal e.old.parts.store assume.now fault }
    requires none { NoneRefuting e.old.parts.store.clauses assume.now }
    requires stands { Stands e.old.parts.store.clauses e.old.parts.store.places assume.now e.old.parts.store.entries }
    ensures places { e.new.parts.store.places ≡ e.old.parts.store.places }
    ensures variables { e.new.theory.variables ≡ e.old.theory.variables }
    ensures learned { IfOk result (λ key. HasLearned e.old e.new assume.now period.old period.new key.0) }
    ensures idle { OnErr result (IsIdle e.old e.new period.old period.new) }
{
    let _assignment = e.parts.store.assignment();
    let blamed = match blame(e.parts.alloc, &e.parts.store, fault, &mut e.parts.marks) {
        Ok(blamed) => blamed,
        Err(want) => return Err(want),
    };
    go_back(&mut e.parts.store, &mut e.parts.branching, 0);
    match learn_clause(e, period, &blamed.clause, blamed.hints.as_slice()) {
        Ok(key) => Ok(key),
        Err(want) => Err(want),
    }
}

// Learns a clause from where a descent stopped: `learn` where a level is open and a clause is false, and else `refute`.
pub(crate) fn advance(
    e: &mut Engine,
    assume: &[Lit],
    period: &mut Period,
    stop: Fault,
) -> Result<ClauseId, AllocError>
    requires engine { IsEngine e.old }
    requires assumptions { AreAssumptions (length e.old.theory.variables) assume.now }
    requires stop { IsStuck e.old.parts.store assume.now stop }
    requires none { NoneRefuting e.old.parts.store.clauses assume.now }
    requires stands { Stands e.old.parts.store.clauses e.old.parts.store.places assume.now e.old.parts.store.entries }
    ensures places { e.new.parts.store.places ≡ e.old.parts.store.places }
    ensures variables { e.new.theory.variables ≡ e.old.theory.variables }
    ensures learned { IfOk result (λ key. HasLearned e.old e.new assume.now period.old period.new key.0) }
    ensures idle { OnErr result (IsIdle e.old e.new period.old period.new) }
{
    if e.parts.store.level() > 0 {
        if let Fault::Conflict(id) = stop {
            return learn(e, assume, period, id);
        }
    }
    refute(e, assume, period, stop)
}
