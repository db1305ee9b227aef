// Propagation by two watched literals.
ghost use Rattle.std.specs.Prelude.{◌≡◌, ◌≢◌, ◌*◌, ◌≤◌, ◌<◌, ℕ, List, Option, Bool, None, Some, length, IfOk, IfSome, MatchOption, OnErr};
ghost use Rattle.theory_form.specs.Literals.{opposite};
ghost use Rattle.theory_form.specs.Truth.{IsFalseIn};
ghost use Rattle.asp_trail.specs.Trail.{IsTrail, values_of};
ghost use Rattle.asp_store.specs.declared.choices.Kept.{Kept as KeptOf};
ghost use Rattle.asp_store.specs.declared.visits.Mark.{Mark as MarkOf};
ghost use Rattle.asp_store.specs.Store.{AllSettled, AllWithin, IsConflict, IsStore};
ghost use Rattle.asp_store.specs.Watch.{AllListed, AllWatched, AreStable, Grows, IsNext, IsWatched, Moved, ShowsLook, clauses_of, code, kept_at};

use crate::choices::{Choice, Kept, choose};
use crate::watches::{Lists, Watcher, list_places, pass};
use asp_trail::{Entry, Trail, Why};
use slab::Slab;
use std::alloc::AllocError;
use theory_form::{ClauseId, Lit};

/// How far a level was looked at: so many entries of the trail, and so many of the clauses that were added.
#[derive(Clone, Copy, PartialEq, Eq, Debug)]
pub struct Mark {
    pub head: usize,
    pub done: usize,
}

fn set_places(clauses: &mut Slab<Kept>, id: usize, i: usize, j: usize)
    ensures changed { (k : KeptOf) → kept_at clauses.old.slots id ≡ Some k → kept_at clauses.new.slots id ≡ Some (record k { first = i; second = j }) }
    ensures others { (o : ℕ) → o ≢ id → kept_at clauses.new.slots o ≡ kept_at clauses.old.slots o }
    ensures same { clauses_of clauses.new.slots ≡ clauses_of clauses.old.slots }
    ensures next { clauses.new.vacant_key ≡ clauses.old.vacant_key }
{
    if let Some(kept) = clauses.get_mut(id) {
        kept.first = i;
        kept.second = j;
    }
}

// Looks at the clause of a watcher. `None` is that it is false; else it is watched well, and this is one of its literals.
fn examine(
    clauses: &mut Slab<Kept>,
    lists: &mut Lists,
    trail: &mut Trail,
    watcher: Watcher,
) -> Result<Option<Lit>, AllocError>
    requires listed { AllListed clauses.old.slots lists.old }
    requires within { AllWithin (clauses_of clauses.old.slots) trail.old.places }
    requires room { 2 * trail.old.places ≤ length lists.old }
    ensures trail { IsTrail trail.old.places trail.old.entries }
    ensures places { trail.new.places ≡ trail.old.places }
    ensures next { clauses.new.vacant_key ≡ clauses.old.vacant_key }
    ensures grows { Grows lists.old lists.new }
    ensures stable { AreStable (values_of trail.old.places trail.old.entries) lists.old lists.new }
    ensures look { IfOk result (λ o. ShowsLook clauses.old.slots clauses.new.slots lists.old lists.new trail.old.places trail.old.entries trail.new.entries watcher.key o) }
    ensures err { OnErr result ((clauses.new.slots ≡ clauses.old.slots) × (trail.new.entries ≡ trail.old.entries)) }
{
    let a = trail.assignment();
    let Some(kept) = clauses.get(watcher.key) else {
        return Ok(Some(watcher.blocker));
    };
    let c = kept.clause.as_slice();
    match choose(a, kept) {
        Choice::Stay(at) => Ok(Some(c[at])),
        Choice::Clash => Ok(None),
        Choice::Watch(i, j) => {
            let lit = c[i];
            list_places(lists, watcher.key, kept, i, j)?;
            set_places(clauses, watcher.key, i, j);
            Ok(Some(lit))
        }
        Choice::Assign(at, i, j) => {
            let lit = c[at];
            list_places(lists, watcher.key, kept, i, j)?;
            set_places(clauses, watcher.key, i, j);
            trail.push(Entry {
                lit,
                why: Why::Clause(ClauseId(watcher.key as u64)),
            });
            Ok(Some(lit))
        }
    }
}

// Looks at the clauses that wait, and answers one that is false.
fn settle(
    clauses: &mut Slab<Kept>,
    lists: &mut Lists,
    trail: &mut Trail,
    pending: &[usize],
    top: &mut Mark,
) -> Result<Option<ClauseId>, AllocError>
    requires listed { AllListed clauses.old.slots lists.old }
    requires store { IsStore (clauses_of clauses.old.slots) trail.old.entries trail.old.places }
    requires room { 2 * trail.old.places ≤ length lists.old }
    requires done_in { top.old.done ≤ length pending.now }
    ensures places { trail.new.places ≡ trail.old.places }
    ensures next { clauses.new.vacant_key ≡ clauses.old.vacant_key }
    ensures head { top.new.head ≡ top.old.head }
    ensures moved { Moved clauses.old.slots clauses.new.slots lists.old lists.new trail.old.places trail.old.entries trail.new.entries }
    ensures watched { (marks : List MarkOf) → IsWatched clauses.old.slots lists.old pending.now trail.old.places trail.old.entries marks top.old → IsWatched clauses.new.slots lists.new pending.now trail.old.places trail.new.entries marks top.new }
    ensures answer { IfOk result (λ o. MatchOption o (top.new.done ≡ length pending.now) (λ id. IsConflict (clauses_of clauses.new.slots) (values_of trail.old.places trail.new.entries) id.0)) }
{
    'waiting: while top.done < pending.len() {
        let key = pending[top.done];
        let blocker = Lit::default();
        match examine(clauses, lists, trail, Watcher { key, blocker })? {
            None => return Ok(Some(ClauseId(key as u64))),
            Some(_) => top.done += 1,
        }
    }
    Ok(None)
}

// Visits the watchers of a literal that became false: each is replaced or taken out at once. Answers a clause that is false.
fn visit(
    clauses: &mut Slab<Kept>,
    lists: &mut Lists,
    trail: &mut Trail,
    l: Lit,
) -> Result<Option<ClauseId>, AllocError>
    requires listed { AllListed clauses.old.slots lists.old }
    requires store { IsStore (clauses_of clauses.old.slots) trail.old.entries trail.old.places }
    requires room { 2 * trail.old.places ≤ length lists.old }
    requires within { code l < length lists.old }
    requires is_false { IsFalseIn (values_of trail.old.places trail.old.entries) l }
    ensures places { trail.new.places ≡ trail.old.places }
    ensures next { clauses.new.vacant_key ≡ clauses.old.vacant_key }
    ensures moved { Moved clauses.old.slots clauses.new.slots lists.old lists.new trail.old.places trail.old.entries trail.new.entries }
    ensures watched { (pending : List ℕ) (marks : List MarkOf) (top : MarkOf) → IsWatched clauses.old.slots lists.old pending trail.old.places trail.old.entries marks top → IsWatched clauses.new.slots lists.new pending trail.old.places trail.new.entries marks top }
    ensures visited { result ≡ Ok None → (p q : List (Option Bool)) → IsNext p q (values_of trail.old.places trail.old.entries) l → AllWatched clauses.old.slots p (values_of trail.old.places trail.old.entries) → AllWatched clauses.new.slots q (values_of trail.old.places trail.new.entries) }
    ensures conflict { IfOk result (λ o. IfSome o (λ id. IsConflict (clauses_of clauses.new.slots) (values_of trail.old.places trail.new.entries) id.0)) }
{
    let mut i = 0;
    'watchers: while i < lists.watchers_of(l).len() {
        let watcher = lists.watchers_of(l)[i];
        if trail.assignment().is_true(watcher.blocker) {
            i += 1;
            continue;
        }
        let key = watcher.key;
        match examine(clauses, lists, trail, watcher)? {
            None => return Ok(Some(ClauseId(key as u64))),
            Some(blocker) => i = pass(clauses, lists, l, i, Watcher { key, blocker }),
        }
    }
    Ok(None)
}

// Visits the watchers of what each entry of the trail made false, as far as that was not done, and answers a clause that
// is false.
fn heads(
    clauses: &mut Slab<Kept>,
    lists: &mut Lists,
    trail: &mut Trail,
    pending: &[usize],
    marks: &[Mark],
    top: &mut Mark,
) -> Result<Option<ClauseId>, AllocError>
    requires store { IsStore (clauses_of clauses.old.slots) trail.old.entries trail.old.places }
    requires room { 2 * trail.old.places ≤ length lists.old }
    requires watched { IsWatched clauses.old.slots lists.old pending.now trail.old.places trail.old.entries marks.now top.old }
    requires settled { top.old.done ≡ length pending.now }
    ensures places { trail.new.places ≡ trail.old.places }
    ensures next { clauses.new.vacant_key ≡ clauses.old.vacant_key }
    ensures moved { Moved clauses.old.slots clauses.new.slots lists.old lists.new trail.old.places trail.old.entries trail.new.entries }
    ensures watched { IsWatched clauses.new.slots lists.new pending.now trail.old.places trail.new.entries marks.now top.new }
    ensures answer { IfOk result (λ o. MatchOption o (AllSettled (clauses_of clauses.new.slots) (values_of trail.old.places trail.new.entries)) (λ id. IsConflict (clauses_of clauses.new.slots) (values_of trail.old.places trail.new.entries) id.0)) }
{
    'heads: while top.head < trail.entries().len() {
        let l = trail.entries()[top.head].lit.opposite();
        let found = visit(clauses, lists, trail, l)?;
        if let Some(id) = found {
            return Ok(Some(id));
        }
        top.head += 1;
    }
    Ok(None)
}

/// Looks at what waits, and then at the watchers of what became false, until a clause is false, which it answers, or no
/// clause is unit or false.
pub fn run(
    clauses: &mut Slab<Kept>,
    lists: &mut Lists,
    trail: &mut Trail,
    pending: &[usize],
    marks: &[Mark],
    top: &mut Mark,
) -> Result<Option<ClauseId>, AllocError>
    requires store { IsStore (clauses_of clauses.old.slots) trail.old.entries trail.old.places }
    requires room { 2 * trail.old.places ≤ length lists.old }
    requires watched { IsWatched clauses.old.slots lists.old pending.now trail.old.places trail.old.entries marks.now top.old }
    ensures places { trail.new.places ≡ trail.old.places }
    ensures next { clauses.new.vacant_key ≡ clauses.old.vacant_key }
    ensures moved { Moved clauses.old.slots clauses.new.slots lists.old lists.new trail.old.places trail.old.entries trail.new.entries }
    ensures watched { IsWatched clauses.new.slots lists.new pending.now trail.old.places trail.new.entries marks.now top.new }
    ensures answer { IfOk result (λ o. MatchOption o (AllSettled (clauses_of clauses.new.slots) (values_of trail.old.places trail.new.entries)) (λ id. IsConflict (clauses_of clauses.new.slots) (values_of trail.old.places trail.new.entries) id.0)) }
{
    let waits = settle(clauses, lists, trail, pending, top)?;
    if let Some(id) = waits {
        return Ok(Some(id));
    }
    let found = heads(clauses, lists, trail, pending, marks, top)?;
    Ok(found)
}
