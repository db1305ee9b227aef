// A clause is kept in all parts of the engine, or in none.
ghost use Rattle.std.specs.Prelude.{◌≡◌, ◌≢◌, ◌+◌, ◌++◌, ◌∷◌, ◌<◌, [], ℕ, length, max, slice_index_or, IfOk, OnErr, OnOk};
ghost use Rattle.theory_model.specs.Whole.{AreOver};
ghost use Rattle.asp_store.specs.Store.{Adds, places_of};
ghost use Rattle.proof_log.specs.Logs.{IsStepOver};
ghost use Rattle.proof_log.specs.States.{StateView, with_clause};
ghost use Rattle.proof_log.specs.Steps.{IsJudged, IsStep};
ghost use Rattle.asp_engine.specs.Keys.{IsEngine, IsIn, number_of};
ghost use Rattle.asp_engine.specs.Lates.{Brings};

use crate::engine::Engine;
use asp_store::Store;
use proof_log::{Step, steps_keep_logs};
use std::alloc::AllocError;
use theory_form::{Clause, ClauseId};

// The number of a key.
pub(crate) fn number_at(numbers: &[ClauseId], key: ClauseId) -> ClauseId
    ensures { result ≡ slice_index_or numbers.now key.0 (record { 0 = 0 }) }
{
    match numbers.get(key.0 as usize) {
        Some(number) => *number,
        None => ClauseId(0),
    }
}

// Makes room for the number of a key.
fn make_room(numbers: &mut Vec<ClauseId>, key: ClauseId) -> Result<(), AllocError>
    ensures same { (k : ℕ) → number_of numbers.new.items k ≡ number_of numbers.old.items k }
    ensures room { OnOk result (key.0 < length numbers.new.items) }
{
    let Some(size) = key.0.checked_add(1) else {
        return Err(AllocError);
    };
    if numbers.len() < size as usize {
        numbers.resize(size as usize, ClauseId(0))?;
    }
    Ok(())
}

// Notes the number of a key, for which there is room.
fn note(numbers: &mut Vec<ClauseId>, key: ClauseId, number: ClauseId)
    requires { key.0 < length numbers.old.items }
    ensures others { (k : ℕ) → k ≢ key.0 → number_of numbers.new.items k ≡ number_of numbers.old.items k }
    ensures own { number_of numbers.new.items key.0 ≡ number.0 }
{
    numbers[key.0 as usize] = number;
}

// Puts a clause into the store and notes its number. Only memory can run out, and then there may be room for more numbers.
pub(crate) fn insert(
    store: &mut Store,
    numbers: &mut Vec<ClauseId>,
    clause: &Clause,
    number: ClauseId,
) -> Result<ClauseId, AllocError>
    ensures added { IfOk result (λ key. Adds store.old.clauses store.new.clauses key.0 clause.now) }
    ensures others { IfOk result (λ key. (k : ℕ) → k ≢ key.0 → number_of numbers.new.items k ≡ number_of numbers.old.items k) }
    ensures own { IfOk result (λ key. number_of numbers.new.items key.0 ≡ number.0) }
    ensures ok { OnOk result (store.new ≡ record store.old { clauses = store.new.clauses; places = max store.old.places (places_of clause.now); next_key = store.new.next_key }) }
    ensures err { OnErr result (store.new ≡ store.old) }
    ensures same { OnErr result ((k : ℕ) → number_of numbers.new.items k ≡ number_of numbers.old.items k) }
{
    let expected = store.next_key();
    if let Err(want) = make_room(numbers, expected) {
        return Err(want);
    }
    let key = match store.add(clause) {
        Ok(key) => key,
        Err(want) => return Err(want),
    };
    note(numbers, key, number);
    Ok(key)
}

// Keeps the clause of a step: in the store, in the log, and by a number of the theory. Only memory can run out, and then nothing
// is kept.
pub(crate) fn keep(e: &mut Engine, clause: &Clause, step: Step) -> Result<ClauseId, AllocError>
    requires step { IsStep step }
    requires judged { IsJudged step }
    requires brings { (v : StateView) → IsIn e.old v → Brings v step clause.now }
    requires over { AreOver (length e.old.theory.variables) clause.now }
    requires listed { IsStepOver (length e.old.theory.variables) step }
    requires engine { IsEngine e.old }
    ensures store { e.new.parts.store ≡ record e.old.parts.store { clauses = e.new.parts.store.clauses; next_key = e.new.parts.store.next_key } }
    ensures variables { e.new.theory.variables ≡ e.old.theory.variables }
    ensures same { (e.new.parts.span ≡ e.old.parts.span) × (e.new.parts.eager ≡ e.old.parts.eager) × (e.new.parts.marks ≡ e.old.parts.marks) }
    ensures added { IfOk result (λ key. Adds e.old.parts.store.clauses e.new.parts.store.clauses key.0 clause.now) }
    ensures kept { OnOk result ((v : StateView) → IsIn e.old v → IsIn e.new (with_clause v clause.now)) }
    ensures log { OnOk result (e.new.log.steps ≡ e.old.log.steps ++ step ∷ []) }
    ensures err_store { OnErr result (e.new.parts.store ≡ e.old.parts.store) }
    ensures err { OnErr result ((v : StateView) → IsIn e.old v → IsIn e.new v) }
    ensures err_log { OnErr result (e.new.log.steps ≡ e.old.log.steps) }
{
    steps_keep_logs();
    if let Err(want) = e.theory.reserve_id() {
        return Err(want);
    }
    if let Err(want) = e.log.reserve(1) {
        return Err(want);
    }
    let number = e.theory.next_id();
    let key = match insert(&mut e.parts.store, &mut e.parts.numbers, clause, number) {
        Ok(key) => key,
        Err(want) => return Err(want),
    };
    let _number = e.theory.skip();
    e.log.push_reserved(step);
    Ok(key)
}
