// The watchers of each literal: the keys of the clauses that watch it, each with a literal of its clause.
ghost use Rattle.std.specs.Prelude.{◌≡◌, ◌<◌, ◌≤◌, ◌+◌, ◌*◌, ◌++◌, ◌^◌, ◌↔◌, ℕ, List, IsTrue, [], ◌∷◌, ◌≢◌, length, slice_index_or, slice_set, OnErr, OnOk};
ghost use Rattle.std.specs.List.{All, Contains};
ghost use Rattle.theory_form.specs.declared.literals.Lit.{Lit as Literal};
ghost use Rattle.asp_store.specs.Watch.{Grows, HasWatcher, IsLonger, IsPassed, IsPlacesIn, IsTakenOut, Listed, code, is_watcher, list_at};

use crate::choices::Kept;
use slab::Slab;
use std::alloc::{AllocError, Global};
use std::marker::Model;
use theory_form::Lit;

/// The key of a clause in the list of a literal, with a literal of the clause. Where that is true the clause need not be
/// looked at. A watcher may be left from an earlier clause of the key, and then does no harm.
#[derive(Clone, Copy, PartialEq, Eq, Debug)]
pub struct Watcher {
    pub key: usize,
    pub blocker: Lit,
}

/// The watchers of a literal.
#[derive(Drop)]
pub struct Watchers {
    list: Vec<Watcher>,
}

impl Model for Watchers {
    ghost use Rattle.std.specs.Prelude.{List};
    ghost use Rattle.asp_store.specs.declared.watches.Watcher.{Watcher as WatcherOf};

    ghost Value = { List WatcherOf };

    ghost view = { λ w. w.list.items };
}

impl Watchers {
    fn new(alloc: Global) -> Self
        ensures { result ≡ [] }
    {
        Watchers {
            list: Vec::new(alloc),
        }
    }

    fn push(&mut self, watcher: Watcher) -> Result<(), AllocError>
        ensures ok { OnOk result (self.new ≡ self.old ++ watcher ∷ []) }
        ensures err { OnErr result (self.new ≡ self.old) }
    {
        self.list.push(watcher)?;
        Ok(())
    }

    fn set(&mut self, i: usize, watcher: Watcher)
        requires { i < length self.old }
        ensures { self.new ≡ slice_set self.old i watcher }
    {
        self.list[i] = watcher;
    }

    fn take_out(&mut self, i: usize)
        requires { i < length self.old }
        ensures { IsTakenOut self.old self.new i }
    {
        self.list.swap_remove(i);
    }
}

/// A list of watchers for each literal: those of variable v stand at the places 2 v, for the negative one, and 2 v + 1. The
/// key of each clause stands in the lists of the two literals that it watches, with a literal of the clause. Other watchers
/// may stand there too, until the list is visited.
#[derive(Drop)]
pub struct Lists {
    lists: Vec<Watchers>,
}

impl Model for Lists {
    ghost use Rattle.std.specs.Prelude.{List};
    ghost use Rattle.asp_store.specs.declared.watches.Watcher.{Watcher as WatcherOf};

    ghost Value = { List (List WatcherOf) };

    ghost view = { λ l. l.lists.items };
}

fn place_of(l: Lit) -> usize
    requires { code l < 2 ^ 64 }
    ensures { result ≡ code l }
{
    2 * l.var.0 as usize + if l.yes { 1 } else { 0 }
}

impl Lists {
    pub fn new(alloc: Global) -> Self
        ensures { result ≡ [] }
    {
        Lists {
            lists: Vec::new(alloc),
        }
    }

    /// Makes so many lists. New ones are empty.
    pub fn grow(&mut self, alloc: Global, wanted: usize) -> Result<(), AllocError>
        ensures longer { IsLonger self.old self.new }
        ensures ok { OnOk result (wanted ≤ length self.new) }
    {
        'rows: while self.lists.len() < wanted {
            self.lists.push(Watchers::new(alloc))?;
        }
        Ok(())
    }

    fn push(&mut self, l: Lit, watcher: Watcher) -> Result<(), AllocError>
        requires { code l < length self.old }
        ensures ok { OnOk result (self.new ≡ slice_set self.old (code l) (list_at self.old (code l) ++ watcher ∷ [])) }
        ensures err { OnErr result (self.new ≡ self.old) }
    {
        let watchers = &mut self.lists[place_of(l)];
        watchers.push(watcher)?;
        Ok(())
    }

    // Puts a watcher in the place of another.
    fn set(&mut self, l: Lit, i: usize, watcher: Watcher)
        requires within { code l < length self.old }
        requires place { i < length (list_at self.old (code l)) }
        ensures { self.new ≡ slice_set self.old (code l) (slice_set (list_at self.old (code l)) i watcher) }
    {
        let watchers = &mut self.lists[place_of(l)];
        watchers.set(i, watcher);
    }

    // Takes a watcher out, and puts the last one into its place.
    fn take_out(&mut self, l: Lit, i: usize)
        requires within { code l < length self.old }
        requires place { i < length (list_at self.old (code l)) }
        ensures one_list { self.new ≡ slice_set self.old (code l) (list_at self.new (code l)) }
        ensures taken { IsTakenOut (list_at self.old (code l)) (list_at self.new (code l)) i }
    {
        let watchers = &mut self.lists[place_of(l)];
        watchers.take_out(i);
    }

    /// Whether the lists of a variable are there.
    pub fn has(&self, l: Lit) -> bool
        ensures { IsTrue result ↔ (2 * l.var.0 + 2 ≤ length self.now) }
    {
        (l.var.0 as usize) < self.lists.len() / 2
    }

    /// The watchers of a literal.
    pub fn watchers_of(&self, l: Lit) -> &[Watcher]
        requires { code l < length self.now }
        ensures { result.now ≡ list_at self.now (code l) }
    {
        self.lists[place_of(l)].list.as_slice()
    }
}

// Whether the clause of a key watches a literal.
fn is_watching(clauses: &Slab<Kept>, id: usize, l: Lit) -> bool
    ensures { result ≡ is_watcher clauses.now.slots l id }
{
    match clauses.get(id) {
        Some(kept) => kept.has_watch(l),
        None => false,
    }
}

/// Replaces the watcher at a place where its clause still watches the literal, and else takes it out. Answers the place
/// where the next one stands.
pub fn pass(clauses: &Slab<Kept>, lists: &mut Lists, l: Lit, i: usize, watcher: Watcher) -> usize
    requires within { code l < length lists.old }
    requires place { i < length (list_at lists.old (code l)) }
    requires fits { i + 1 < 2 ^ 64 }
    ensures { IsPassed (is_watcher clauses.now.slots l watcher.key) lists.old lists.new (code l) i result watcher }
{
    if is_watching(clauses, watcher.key, l) {
        lists.set(l, i, watcher);
        return i + 1;
    }
    lists.take_out(l, i);
    i
}

/// Puts a new clause into the lists of two of its literals, which may be one.
pub fn list_new(
    lists: &mut Lists,
    id: usize,
    lits: &[Lit],
    first: usize,
    second: usize,
) -> Result<(), AllocError>
    requires codes { All (λ l. code l < length lists.old) lits.now }
    requires first_in { 0 < length lits.now → first < length lits.now }
    requires second_in { 0 < length lits.now → second < length lits.now }
    ensures grows { Grows lists.old lists.new }
    ensures listed { OnOk result (Listed lists.new id (record { first = first; second = second; clause = lits.now })) }
{
    if lits.len() == 0 {
        return Ok(());
    }
    list_two(lists, id, lits, first, second)
}

// Puts a new clause that is not empty into the lists of two of its literals, which may be one.
fn list_two(
    lists: &mut Lists,
    id: usize,
    lits: &[Lit],
    first: usize,
    second: usize,
) -> Result<(), AllocError>
    requires codes { All (λ l. code l < length lists.old) lits.now }
    requires first_in { first < length lits.now }
    requires second_in { second < length lits.now }
    ensures grows { Grows lists.old lists.new }
    ensures listed { OnOk result (Listed lists.new id (record { first = first; second = second; clause = lits.now })) }
{
    list_moved(lists, id, lits.len(), first, lits[first], lits[second])?;
    list_moved(lists, id, first, second, lits[second], lits[first])?;
    Ok(())
}

// Puts a key into the list of the literal at a place, with another literal of its clause, unless that place was watched.
fn list_moved(
    lists: &mut Lists,
    id: usize,
    was: usize,
    place: usize,
    l: Lit,
    blocker: Lit,
) -> Result<(), AllocError>
    requires within { code l < length lists.old }
    ensures grows { Grows lists.old lists.new }
    ensures listed { OnOk result ((c : List Literal) → (place ≡ was → HasWatcher (list_at lists.old (code l)) id c) → Contains c blocker → HasWatcher (list_at lists.new (code l)) id c) }
    ensures stable { (x : ℕ) → (place ≢ was → x ≢ code l) → list_at lists.new x ≡ list_at lists.old x }
{
    if place == was {
        return Ok(());
    }
    lists.push(l, Watcher { key: id, blocker })?;
    Ok(())
}

/// Puts the key of a clause into the lists of the literals at two places that it is to watch, unless it watches them.
pub fn list_places(
    lists: &mut Lists,
    id: usize,
    kept: &Kept,
    i: usize,
    j: usize,
) -> Result<(), AllocError>
    requires places { IsPlacesIn kept.now i j (length lists.old) }
    requires listed { Listed lists.old id kept.now }
    ensures grows { Grows lists.old lists.new }
    ensures listed { OnOk result (Listed lists.new id (record kept.now { first = i; second = j })) }
    ensures stable { (x : ℕ) → (i ≢ kept.now.first → (d : Literal) → x ≢ code (slice_index_or kept.now.clause i d)) → (j ≢ kept.now.second → (d : Literal) → x ≢ code (slice_index_or kept.now.clause j d)) → list_at lists.new x ≡ list_at lists.old x }
{
    let c = kept.clause.as_slice();
    list_moved(lists, id, kept.first, i, c[i], c[j])?;
    list_moved(lists, id, kept.second, j, c[j], c[i])?;
    Ok(())
}
