// The clauses of the theory are taken into the store.
ghost use Rattle.std.specs.Prelude.{◌≡◌, ◌+◌, ◌≤◌, List, length, OnErr, OnOk};
ghost use Rattle.theory_model.specs.Whole.{IsWhole};
ghost use Rattle.proof_log.specs.declared.steps.Step.{Step};
ghost use Rattle.proof_log.specs.States.{StateView};
ghost use Rattle.asp_engine.specs.Keys.{AreUnmarked, HasTaken, IsIn};

use crate::engine::Engine;
use crate::keeping::insert;
use asp_store::Store;
use std::alloc::AllocError;
use theory_form::{ClauseId, Theory};

// Takes in the clause of the number behind those that were taken, if there is one.
fn take_next(
    t: &Theory,
    store: &mut Store,
    numbers: &mut Vec<ClauseId>,
    taken: u64,
    number: ClauseId,
) -> Result<(), AllocError>
    requires number { number.0 ≡ taken + 1 }
    requires whole { IsWhole t.now }
    requires places { store.old.places ≤ length t.now.variables + 1 }
    ensures places { store.new.places ≤ length t.now.variables + 1 }
    ensures ok { OnOk result ((steps : List Step) (v : StateView) → HasTaken taken t.now steps store.old numbers.old.items v →
        HasTaken (taken + 1) t.now steps store.new numbers.new.items v) }
    ensures err { OnErr result ((steps : List Step) (v : StateView) → HasTaken taken t.now steps store.old numbers.old.items v →
        HasTaken taken t.now steps store.new numbers.new.items v) }
{
    let Some(clause) = t.clause(number) else {
        return Ok(());
    };
    match insert(store, numbers, clause, number) {
        Ok(_) => Ok(()),
        Err(want) => Err(want),
    }
}

// Takes in all clauses that there are. Only memory can run out.
fn take_clauses(
    t: &Theory,
    store: &mut Store,
    numbers: &mut Vec<ClauseId>,
    taken: &mut u64,
) -> Result<(), AllocError>
    requires whole { IsWhole t.now }
    requires most { taken.old ≤ length t.now.clauses }
    requires places { store.old.places ≤ length t.now.variables + 1 }
    ensures most { taken.new ≤ length t.now.clauses }
    ensures places { store.new.places ≤ length t.now.variables + 1 }
    ensures taken { (steps : List Step) (v : StateView) → HasTaken taken.old t.now steps store.old numbers.old.items v →
        HasTaken taken.new t.now steps store.new numbers.new.items v }
    ensures all { OnOk result (length t.now.clauses ≤ taken.new) }
{
    let next = t.next_id().0;
    'clauses: while *taken + 1 < next {
        match take_next(t, store, numbers, *taken, ClauseId(*taken + 1)) {
            Ok(()) => {}
            Err(want) => return Err(want),
        }
        *taken += 1;
    }
    Ok(())
}

/// Takes what the theory gained since `taken` into the store, and makes a place for each variable. Only memory can run out; then the next
/// call goes on where this one stopped.
pub fn take_in(e: &mut Engine, taken: &mut u64) -> Result<(), AllocError>
    requires taken { (v : StateView) × HasTaken taken.old e.old.theory e.old.log.steps e.old.parts.store e.old.parts.numbers.items v }
    requires most { taken.old ≤ length e.old.theory.clauses }
    requires places { e.old.parts.store.places ≤ length e.old.theory.variables + 1 }
    requires marks { AreUnmarked (length e.old.parts.marks) e.old.parts.marks }
    ensures same { (e.new.theory ≡ e.old.theory) × (e.new.log ≡ e.old.log) × (e.new.parts.span ≡ e.old.parts.span) }
    ensures most { taken.new ≤ length e.new.theory.clauses }
    ensures places { e.new.parts.store.places ≤ length e.new.theory.variables + 1 }
    ensures marks { AreUnmarked (length e.new.parts.marks) e.new.parts.marks }
    ensures taken { (v : StateView) → HasTaken taken.old e.old.theory e.old.log.steps e.old.parts.store e.old.parts.numbers.items v →
        HasTaken taken.new e.new.theory e.new.log.steps e.new.parts.store e.new.parts.numbers.items v }
    ensures ok { OnOk result ((v : StateView) → HasTaken taken.old e.old.theory e.old.log.steps e.old.parts.store e.old.parts.numbers.items v → IsIn e.new v) }
{
    match take_clauses(&e.theory, &mut e.parts.store, &mut e.parts.numbers, taken) {
        Ok(()) => {}
        Err(want) => return Err(want),
    }
    let vars = e.theory.var_count();
    if let Err(want) = e.parts.store.reserve_trail(vars) {
        return Err(want);
    }
    if let Err(want) = e.parts.marks.reserve(vars) {
        return Err(want);
    }
    if let Err(want) = e.parts.branching.reserve(vars) {
        return Err(want);
    }
    Ok(())
}
