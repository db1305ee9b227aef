// How a clause comes into the store.
ghost use Rattle.std.specs.Prelude.{◌≡◌, ◌<◌, ◌≤◌, ◌+◌, ◌*◌, ◌^◌, ℕ, length, max, vec_capacity, vec_len, IfOk, OnErr, OnOk};
ghost use Rattle.std.specs.List.{All};
ghost use Rattle.theory_form.specs.Literals.{IsAscending};
ghost use Rattle.asp_trail.specs.Trail.{IsTrail};
ghost use Rattle.asp_store.specs.Store.{places_of};
ghost use Rattle.asp_store.specs.Watch.{Grows, InFrom, IsDroppedOrSame, IsInserted, IsLonger, code};

use crate::choices::Kept;
use crate::lits::{Lits, reserve_clause};
use crate::visits::Mark;
use crate::watches::{Lists, list_new};
use asp_trail::Trail;
use slab::Slab;
use std::alloc::{AllocError, Global};
use theory_form::Lit;

// How many places there are for the variables up to `vars`. Lists for so many as 2^63 fit no memory.
fn places_up_to(vars: u64) -> Result<usize, AllocError>
    ensures places { IfOk result (λ places. places ≡ vars + 1) }
    ensures fits { IfOk result (λ places. 2 * places < 2 ^ 64) }
{
    if vars < u64::MAX / 2 {
        Ok(vars as usize + 1)
    } else {
        Err(AllocError)
    }
}

// Makes room for so many marks in all.
fn reserve_marks(marks: &mut Vec<Mark>, wanted: usize) -> Result<(), AllocError>
    ensures items { marks.new.items ≡ marks.old.items }
    ensures ok { OnOk result (wanted ≤ vec_capacity marks.new) }
    ensures wider { vec_capacity marks.old ≤ vec_capacity marks.new }
{
    let len = marks.len();
    if len < wanted {
        marks.reserve(wanted - len)?;
    }
    Ok(())
}

/// Makes the lists of the variables up to `vars`, and room for the marks of so many levels.
pub fn make_lists(
    alloc: Global,
    lists: &mut Lists,
    marks: &mut Vec<Mark>,
    vars: u64,
) -> Result<(), AllocError>
    ensures longer { IsLonger lists.old lists.new }
    ensures lists { OnOk result (2 * (vars + 1) ≤ length lists.new) }
    ensures marks { marks.new.items ≡ marks.old.items }
    ensures wider { vec_capacity marks.old ≤ vec_capacity marks.new }
    ensures levels { OnOk result (vars + 1 ≤ vec_capacity marks.new) }
{
    let places = places_up_to(vars)?;
    lists.grow(alloc, 2 * places)?;
    reserve_marks(marks, places)?;
    Ok(())
}

/// Makes the lists of the variables of a clause, of which the last is the greatest, and room for the marks.
pub fn make_rooms(
    alloc: Global,
    lists: &mut Lists,
    marks: &mut Vec<Mark>,
    lits: &[Lit],
) -> Result<(), AllocError>
    requires { IsAscending lits.now }
    ensures longer { IsLonger lists.old lists.new }
    ensures lists { OnOk result (2 * places_of lits.now ≤ length lists.new) }
    ensures marks { marks.new.items ≡ marks.old.items }
    ensures wider { vec_capacity marks.old ≤ vec_capacity marks.new }
    ensures levels { OnOk result (places_of lits.now ≤ vec_capacity marks.new) }
{
    match lits.last() {
        Some(l) => make_lists(alloc, lists, marks, l.var.0),
        None => Ok(()),
    }
}

/// Makes room for one more key in each list.
pub fn reserve_keys(pending: &mut Vec<usize>, empties: &mut Vec<usize>) -> Result<(), AllocError>
    ensures pending { pending.new.items ≡ pending.old.items }
    ensures empties { empties.new.items ≡ empties.old.items }
    ensures pending_room { OnOk result (vec_len pending.old + 1 ≤ vec_capacity pending.new) }
    ensures empties_room { OnOk result (vec_len empties.old + 1 ≤ vec_capacity empties.new) }
{
    pending.reserve(1)?;
    empties.reserve(1)?;
    Ok(())
}

/// Drops the keys that wait, where all clauses were looked at and no level is open.
pub fn drop_done(pending: &mut Vec<usize>, top: &mut Mark, level: usize)
    ensures { IsDroppedOrSame pending.old.items top.old level pending.new.items top.new }
{
    if level != 0 || top.done != pending.len() {
        return;
    }
    pending.clear();
    top.done = 0;
}

/// Puts a clause into the slab and into the lists of the two literals that are the best to watch, and makes the places of its
/// variables. Where it fails nothing changes but that lists may have keys more.
pub fn insert(
    alloc: Global,
    clauses: &mut Slab<Kept>,
    lists: &mut Lists,
    trail: &mut Trail,
    lits: &[Lit],
) -> Result<usize, AllocError>
    requires codes { All (λ l. code l < length lists.old) lits.now }
    requires ascending { IsAscending lits.now }
    ensures trail { IsTrail trail.old.places trail.old.entries }
    ensures grows { Grows lists.old lists.new }
    ensures added { IfOk result (λ id. IsInserted clauses.old.slots clauses.new.slots lists.new id lits.now) }
    ensures key { IfOk result (λ id. id ≡ clauses.old.vacant_key) }
    ensures places { OnOk result (trail.new ≡ record trail.old { places = max trail.old.places (places_of lits.now) }) }
    ensures slots { OnErr result (clauses.new.slots ≡ clauses.old.slots) }
    ensures next { OnErr result (clauses.new.vacant_key ≡ clauses.old.vacant_key) }
    ensures err { OnErr result (trail.new ≡ trail.old) }
{
    let _assignment = trail.assignment();
    let clause = Lits::from_slice(alloc, lits)?;
    clauses.reserve(1)?;
    let id = clauses.vacant_key();
    let first = best_place(trail, lits, lits.len());
    let second = best_place(trail, lits, first);
    list_new(lists, id, lits, first, second)?;
    reserve_clause(trail, lits)?;
    Ok(clauses.insert_reserved(Kept {
        first,
        second,
        clause,
    }))
}

// How good a literal is to watch: the better, the later it has no value on the way back.
fn rank(trail: &Trail, l: Lit) -> u64 {
    if !trail.assignment().is_false(l) {
        return u64::MAX;
    }
    match trail.why(l.var) {
        Some((_, level)) => level,
        None => u64::MAX,
    }
}

// The place of the literal that is the best to watch, but for one place where there are others.
fn best_place(trail: &Trail, lits: &[Lit], but: usize) -> usize
    ensures { 0 < length lits.now → result < length lits.now }
{
    let mut best = if but == 0 && lits.len() > 1 { 1 } else { 0 };
    for i in 0..lits.len() {
        if i != but && rank(trail, lits[i]) > rank(trail, lits[best]) {
            best = i;
        }
    }
    best
}

/// Notes the key of a clause that is empty.
pub fn note_empty(empties: &mut Vec<usize>, key: usize, lits: &[Lit])
    requires { vec_len empties.old + 1 ≤ vec_capacity empties.old }
    ensures kept { (id : ℕ) → InFrom empties.old.items 0 id → InFrom empties.new.items 0 id }
    ensures noted { length lits.now ≡ 0 → InFrom empties.new.items 0 key }
{
    if lits.len() == 0 {
        empties.push_reserved(key);
    }
}
