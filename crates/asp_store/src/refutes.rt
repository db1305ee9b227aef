// Which clauses are refuted by assumptions.
ghost use Rattle.std.specs.Prelude.{◌≡◌, ◌↔◌, ◌*◌, ◌+◌, ◌≤◌, ℕ, length, Some, IsTrue, MatchOption};
ghost use Rattle.std.specs.List.{All, Contains};
ghost use Rattle.theory_form.specs.Literals.{opposite};
ghost use Rattle.theory_form.specs.declared.literals.Lit.{Lit as Literal};
ghost use Rattle.asp_store.specs.Store.{AllWithin, IsNegated};
ghost use Rattle.asp_store.specs.Watch.{AreEmptiesIn, AllListed, IsRefutingAt, clauses_of, code, kept_at, list_at};

use crate::choices::Kept;
use crate::watches::{Lists, Watcher};
use slab::Slab;
use theory_form::Lit;

// Whether a literal is the opposite of an assumption.
fn is_negated(assume: &[Lit], l: Lit) -> bool
    ensures { IsTrue result ↔ Contains assume.now (opposite l) }
{
    assume.contains(&l.opposite())
}

// Whether each literal of a clause is the opposite of an assumption.
fn are_negated(assume: &[Lit], lits: &[Lit]) -> bool
    ensures { IsTrue result ↔ IsNegated assume.now lits.now }
{
    for l in lits {
        if !is_negated(assume, *l) {
            return false;
        }
    }
    true
}

// Whether there is a clause of a key all of whose literals are opposites of assumptions.
fn is_refuting(clauses: &Slab<Kept>, assume: &[Lit], key: usize) -> bool
    ensures { IsTrue result ↔ IsRefutingAt clauses.now.slots assume.now key }
{
    match clauses.get(key) {
        Some(kept) => are_negated(assume, kept.clause.as_slice()),
        None => false,
    }
}

// The key of a clause of the list that is refuted.
fn refuting_in(clauses: &Slab<Kept>, assume: &[Lit], list: &[Watcher]) -> Option<usize>
    ensures { MatchOption result (All (λ w. IsRefutingAt clauses.now.slots assume.now w.key → ⊥) list.now) (λ key. IsRefutingAt clauses.now.slots assume.now key) }
{
    for watcher in list {
        if is_refuting(clauses, assume, watcher.key) {
            return Some(watcher.key);
        }
    }
    None
}

// The key of a clause that is refuted and watches a literal.
fn refuting_of(clauses: &Slab<Kept>, lists: &Lists, assume: &[Lit], l: Lit) -> Option<usize>
    ensures { MatchOption result (2 * l.var.0 + 2 ≤ length lists.now → All (λ w. IsRefutingAt clauses.now.slots assume.now w.key → ⊥) (list_at lists.now (code l))) (λ key. IsRefutingAt clauses.now.slots assume.now key) }
{
    if !lists.has(l) {
        return None;
    }
    refuting_in(clauses, assume, lists.watchers_of(l))
}

// The key of a clause that is refuted, among those that watch the opposite of an assumption.
fn refuting_watcher(clauses: &Slab<Kept>, lists: &Lists, assume: &[Lit]) -> Option<usize>
    ensures { MatchOption result (All (λ l. 2 * l.var.0 + 2 ≤ length lists.now → All (λ w. IsRefutingAt clauses.now.slots assume.now w.key → ⊥) (list_at lists.now (code (opposite l)))) assume.now) (λ key. IsRefutingAt clauses.now.slots assume.now key) }
{
    for l in assume {
        if let Some(key) = refuting_of(clauses, lists, assume, l.opposite()) {
            return Some(key);
        }
    }
    None
}

// The key of a clause that is refuted, among those that were empty once.
fn refuting_key(clauses: &Slab<Kept>, assume: &[Lit], keys: &[usize]) -> Option<usize>
    ensures { MatchOption result (All (λ key. IsRefutingAt clauses.now.slots assume.now key → ⊥) keys.now) (λ key. IsRefutingAt clauses.now.slots assume.now key) }
{
    for key in keys {
        if is_refuting(clauses, assume, *key) {
            return Some(*key);
        }
    }
    None
}

/// The key of a clause all of whose literals are opposites of assumptions, and `None` exactly where there is none.
pub fn find_refuting(
    clauses: &Slab<Kept>,
    lists: &Lists,
    empties: &[usize],
    assume: &[Lit],
    places: u64,
) -> Option<usize>
    requires listed { AllListed clauses.now.slots lists.now }
    requires empties { AreEmptiesIn clauses.now.slots empties.now }
    requires within { AllWithin (clauses_of clauses.now.slots) places }
    requires room { 2 * places ≤ length lists.now }
    ensures { MatchOption result ((id : ℕ) → IsRefutingAt clauses.now.slots assume.now id → ⊥) (λ key. IsRefutingAt clauses.now.slots assume.now key) }
{
    if let Some(key) = refuting_key(clauses, assume, empties) {
        return Some(key);
    }
    refuting_watcher(clauses, lists, assume)
}
