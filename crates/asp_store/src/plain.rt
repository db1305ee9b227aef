// A store with plain propagation, which looks at all clauses in turn. It is the yardstick of the tests.
ghost use Rattle.std.specs.Prelude.{◌≡◌, ◌<◌, [], ◌∷◌, max, IfOk, MatchOption, OnErr, OnOk};
ghost use Rattle.theory_form.specs.Literals.{IsAscending};
ghost use Rattle.theory_form.specs.Truth.{IsFreeIn};
ghost use Rattle.asp_trail.specs.Trail.{IsTrail, back};
ghost use Rattle.asp_store.specs.Plain.{ShowsOpen};
ghost use Rattle.asp_store.specs.Store.{Adds, AllSettled, Grew, IsConflict, IsStore, assigned, places_of};

use crate::lits::{Lits, reserve_clause};
use asp_trail::{Entry, Trail, Why};
use slab::Slab;
use std::alloc::{AllocError, Global};
use std::marker::Model;
use theory_form::{Assignment, Clause, ClauseId, Lit, Sight, look};

/// What a look at all clauses tells: nothing, a clause that is false, or one that implies a literal.
#[derive(Clone, Copy, PartialEq, Eq, Debug)]
pub enum Open {
    Nothing,
    Conflict(ClauseId),
    Implied(ClauseId, Lit),
}

// Looks at clauses until one is unit or false.
fn first_open(assignment: &Assignment, clauses: &Slab<Lits>) -> Open
    ensures { ShowsOpen clauses.now.slots assignment.now result }
{
    for (key, clause) in clauses.iter() {
        let lits = clause.as_slice();
        match look(assignment, lits) {
            Sight::Empty => return Open::Conflict(ClauseId(key as u64)),
            Sight::Single(i) => return Open::Implied(ClauseId(key as u64), lits[i]),
            Sight::True(_) => {}
            Sight::Wide(_, _) => {}
        }
    }
    Open::Nothing
}

// Puts a clause into the slab.
fn insert_copy(alloc: Global, clauses: &mut Slab<Lits>, lits: &[Lit]) -> Result<usize, AllocError>
    ensures added { IfOk result (λ key. Adds clauses.old.slots clauses.new.slots key lits.now) }
    ensures err { OnErr result (clauses.new.slots ≡ clauses.old.slots) }
{
    let copy = Lits::from_slice(alloc, lits)?;
    match clauses.insert(copy) {
        Ok(key) => Ok(key),
        Err(_) => Err(AllocError),
    }
}

/// Clauses and a trail, under the same contract as the watched store.
#[derive(Drop)]
pub struct Store {
    alloc: Global,
    clauses: Slab<Lits>,
    trail: Trail,
}

impl Model for Store {
    ghost use Rattle.asp_store.specs.Store.{State, IsStore};

    ghost Value = { State };

    ghost view = { λ s. record { clauses = s.clauses.slots; entries = s.trail.entries; places = s.trail.places; next_key = s.clauses.vacant_key } };

    ghost invariant = { λ s. IsStore s.clauses.slots s.trail.entries s.trail.places };
}

impl Store {
    /// The empty store, without places.
    pub fn new(alloc: Global) -> Self
        ensures { result ≡ record { clauses = []; entries = []; places = 0; next_key = 0 } }
    {
        Store {
            alloc,
            clauses: Slab::new(alloc),
            trail: Trail::new(alloc),
        }
    }

    /// The assignment in which the literals of the trail are true.
    pub fn assignment(&self) -> &Assignment
        ensures value { result.now ≡ assigned self.now }
        ensures trail { IsTrail self.now.places self.now.entries }
        ensures store { IsStore self.now.clauses self.now.entries self.now.places }
    {
        self.trail.assignment()
    }

    /// How many places there are.
    pub fn places(&self) -> u64
        ensures { result ≡ self.now.places }
    {
        self.trail.places()
    }

    /// Opens a level and assigns a literal, whose variable has a place and no value. It takes no memory.
    pub fn decide(&mut self, l: Lit)
        requires within { l.var.0 < self.old.places }
        requires free { IsFreeIn (assigned self.old) l }
        ensures { self.new ≡ record self.old { entries = record { lit = l; why = Why.Decision } ∷ self.old.entries } }
    {
        self.trail.push(Entry {
            lit: l,
            why: Why::Decision,
        });
    }

    /// Takes back what was assigned above a level. It takes no memory.
    pub fn back(&mut self, level: u64)
        ensures { self.new ≡ record self.old { entries = back level self.old.entries } }
    {
        self.trail.back(level);
    }

    /// Adds a clause and answers its key, which no clause had. It makes places for the variables of the clause. Only memory
    /// can run out; then nothing else changes, but places may have been made.
    pub fn add(&mut self, c: &Clause) -> Result<ClauseId, AllocError>
        ensures added { IfOk result (λ id. Adds self.old.clauses self.new.clauses id.0 c.now) }
        ensures ok { OnOk result (self.new ≡ record self.old { clauses = self.new.clauses; places = max self.old.places (places_of c.now); next_key = self.new.next_key }) }
        ensures err { OnErr result (self.new ≡ record self.old { places = self.new.places; next_key = self.new.next_key }) }
    {
        let lits = c.lits();
        reserve_clause(&mut self.trail, lits)?;
        let key = insert_copy(self.alloc, &mut self.clauses, lits)?;
        Ok(ClauseId(key as u64))
    }

    /// Assigns literals that clauses imply until a clause is false, which it answers, or no clause is unit or false. Only
    /// memory can run out, and then the trail may have grown.
    pub fn propagate(&mut self) -> Result<Option<ClauseId>, AllocError>
        ensures same { self.new ≡ record self.old { entries = self.new.entries } }
        ensures grew { Grew self.old.clauses self.old.places self.old.entries self.new.entries }
        ensures answer { IfOk result (λ o. MatchOption o (AllSettled self.new.clauses (assigned self.new)) (λ id. IsConflict self.new.clauses (assigned self.new) id.0)) }
    {
        'rounds: loop {
            match first_open(self.trail.assignment(), &self.clauses) {
                Open::Nothing => return Ok(None),
                Open::Conflict(id) => return Ok(Some(id)),
                Open::Implied(id, lit) => self.trail.push(Entry {
                    lit,
                    why: Why::Clause(id),
                }),
            }
        }
    }
}
