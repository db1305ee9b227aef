// The clauses that steps added, by their numbers.
ghost use Rattle.std.specs.Prelude.{◌≡◌, ◌↔◌, ◌-◌, ◌<◌, [], None, replicate, IfOk, IsSome, IsTrue, OnOk};
ghost use Rattle.std.specs.Option.{option_copied};
ghost use Rattle.proof_log.specs.Added.{HasRoomAt, IsEmpty, slots_of};
ghost use Rattle.proof_log.specs.States.{entry_of, put, taken};

use crate::clauses::put;
use std::alloc::{AllocError, Global};
use theory_form::{Clause, ClauseId};

// The clauses that steps added and that are not erased, by their numbers, number k being at place k - 1. Nothing is kept for
// the first `offset` numbers, which are those of the theory.
#[derive(Drop)]
pub(crate) struct Added {
    offset: usize,
    items: Vec<Option<Clause>>,
}

// So many places with nothing.
fn nothing(alloc: Global, places: usize) -> Result<Vec<Option<Clause>>, AllocError>
    ensures { IfOk result (λ items. items.items ≡ replicate places None) }
{
    let mut items = Vec::new(alloc);
    for _ in 0..places {
        items.push(None)?;
    }
    Ok(items)
}

impl Added {
    // No clause.
    pub(crate) fn new(alloc: Global) -> Self
        ensures { slots_of result ≡ [] }
    {
        Added {
            offset: 0,
            items: Vec::new(alloc),
        }
    }

    // Where its memory comes from.
    pub(crate) fn allocator(&self) -> Global {
        *self.items.allocator()
    }

    // The clause of a number.
    pub(crate) fn get(&self, id: ClauseId) -> Option<&Clause>
        ensures { option_copied result ≡ entry_of (slots_of self.now) id.0 }
    {
        let place = id.0.checked_sub(1)? as usize;
        match self.items.get(place.checked_sub(self.offset)?) {
            Some(slot) => slot.as_ref(),
            None => None,
        }
    }

    // Makes room for a clause of a number. Only memory can run out. The clauses stay the same.
    pub(crate) fn reserve(&mut self, number: usize) -> Result<(), AllocError>
        requires { 0 < number }
        ensures same { slots_of self.new ≡ slots_of self.old }
        ensures room { OnOk result (HasRoomAt self.new (number - 1)) }
    {
        if number <= self.offset {
            return self.lower(number - 1);
        }
        let places = if self.is_empty() {
            1
        } else {
            number - self.offset
        };
        self.items.reserve(places.saturating_sub(self.items.len()))?;
        Ok(())
    }

    // Whether nothing is kept yet.
    fn is_empty(&self) -> bool
        ensures { IsTrue result ↔ IsEmpty self.now }
    {
        self.offset == 0 && self.items.is_empty()
    }

    // Keeps places for the numbers from an earlier place on.
    fn lower(&mut self, place: usize) -> Result<(), AllocError>
        requires { place < self.old.offset }
        ensures same { slots_of self.new ≡ slots_of self.old }
        ensures room { OnOk result (HasRoomAt self.new place) }
    {
        let mut items = nothing(*self.items.allocator(), self.offset - place)?;
        items.append(&mut self.items)?;
        self.items = items;
        self.offset = place;
        Ok(())
    }

    // Puts a clause under a number.
    pub(crate) fn put(&mut self, number: usize, clause: Clause)
        requires number { 0 < number }
        requires room { HasRoomAt self.old (number - 1) }
        ensures { slots_of self.new ≡ put (slots_of self.old) (number - 1) clause }
    {
        if self.is_empty() {
            self.offset = number - 1;
            self.items.push_reserved(Some(clause));
        } else {
            put(&mut self.items, number - 1 - self.offset, clause);
        }
    }

    // Takes the clause of a number away.
    pub(crate) fn take(&mut self, id: ClauseId)
        requires { IsSome (entry_of (slots_of self.old) id.0) }
        ensures { slots_of self.new ≡ taken (slots_of self.old) id.0 }
    {
        let place = id.0 as usize - 1 - self.offset;
        self.items[place] = None;
    }
}
