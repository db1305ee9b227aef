// Forgetting, where a period of the query in work has just ended.
ghost use Rattle.std.specs.Prelude.{◌≡◌, ◌==◌, true, false, IfSome, IsFalse};
ghost use Rattle.std.specs.List.{All, list_any};
ghost use Rattle.theory_form.specs.declared.literals.ClauseId.{ClauseId as Id};
ghost use Rattle.asp_engine.specs.Forgetting.{Forgot, MayErase};
ghost use Rattle.asp_engine.specs.Keys.{IsEngine};
ghost use Rattle.asp_engine.specs.Moves.{held_by};
ghost use Rattle.asp_engine.specs.Periods.{AreAscendingIds};

use crate::engine::Engine;
use crate::keeping::number_at;
use crate::periods::Query;
use proof_log::{Step, steps_keep_logs};
use theory_form::ClauseId;

// Whether the number is among these, which ascend.
fn is_among(ids: &[ClauseId], number: ClauseId) -> bool
    requires { AreAscendingIds ids.now }
    ensures { IsFalse result → list_any (λ (m : Id). m.0 == number.0) ids.now ≡ false }
{
    match ids.binary_search(&number) {
        Ok(_) => true,
        Err(_) => false,
    }
}

// Whether a query learned the clause of this number in its present period.
fn is_held(others: &[Query], number: ClauseId) -> bool
    requires { All (λ q. AreAscendingIds q.period.learned) others.now }
    ensures { IsFalse result → held_by others.now number.0 ≡ false }
{
    for query in others {
        if is_among(query.period.learned.as_slice(), number) {
            return true;
        }
    }
    false
}

// The number of the clause of a key, if it may be erased: it is not of the theory, has two literals, no other open query holds it,
// and it is the reason of no assigned literal.
fn number_to_erase(e: &Engine, others: &[Query], key: ClauseId) -> Option<ClauseId>
    requires { All (λ q. AreAscendingIds q.period.learned) others.now }
    ensures { IfSome result (λ number. MayErase e.now (held_by others.now) key.0 number.0) }
{
    let Some(lits) = e.parts.store.clause(key) else {
        return None;
    };
    if lits.len() < 2 || e.parts.store.is_reason(key) {
        return None;
    }
    let number = number_at(e.parts.numbers.as_slice(), key);
    if e.theory.clause(number).is_some() || is_held(others, number) {
        return None;
    }
    Some(number)
}

// Takes a clause out of the store and the log, if it may be erased and the log has room, and answers whether it did.
fn erase(e: &mut Engine, others: &[Query], key: ClauseId) -> bool
    requires engine { IsEngine e.old }
    requires ascending { All (λ q. AreAscendingIds q.period.learned) others.now }
    ensures { Forgot (held_by others.now) true e.old e.new }
{
    steps_keep_logs();
    let Some(number) = number_to_erase(e, others, key) else {
        return false;
    };
    if e.log.reserve(1).is_err() {
        return false;
    }
    if !e.parts.store.forget(key) {
        return false;
    }
    e.log.push_reserved(Step::Erase { clause: number });
    true
}

// Takes the clause at a place of the pool out, if it may be erased.
fn erase_at(e: &mut Engine, others: &[Query], at: usize)
    requires engine { IsEngine e.old }
    requires ascending { All (λ q. AreAscendingIds q.period.learned) others.now }
    ensures { Forgot (held_by others.now) true e.old e.new }
{
    let Some(key) = e.parts.pool.key_at(at) else {
        return;
    };
    if erase(e, others, key) {
        e.parts.pool.remove(at);
    }
}

// Takes the worse half of the learned clauses out, as far as they may be erased. Where memory runs out they stay.
pub(crate) fn forget(e: &mut Engine, others: &[Query])
    requires engine { IsEngine e.old }
    requires ascending { All (λ q. AreAscendingIds q.period.learned) others.now }
    ensures { Forgot (held_by others.now) true e.old e.new }
{
    let (from, to) = e.parts.pool.rank();
    for at in (from..to).rev() {
        erase_at(e, others, at);
    }
}
