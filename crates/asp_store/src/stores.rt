// The store: clauses with two watched literals, the trail and the watchers.
ghost use Rattle.std.specs.Prelude.{◌≡◌, ◌↔◌, ◌<◌, ◌+◌, ◌⊎◌, [], ◌∷◌, map, max, reverse, vec_capacity, None, IfOk, IfSome, IsFalse, IsTrue, MatchOption, OnErr, OnOk};
ghost use Rattle.std.specs.Option.{option_copied};
ghost use Rattle.theory_form.specs.Literals.{IsAscending};
ghost use Rattle.theory_form.specs.Truth.{IsFreeIn};
ghost use Rattle.asp_trail.specs.Trail.{IsTrail, back, level_of, why_in};
ghost use Rattle.asp_store.specs.Store.{Adds, AllSettled, Grew, IsConflict, IsImpliedBy, IsReasonOfSome, IsRefuting, IsStore, NoneRefuting, Removes, assigned, clause_at, places_of};

use crate::choices::Kept;
use crate::inserts::{drop_done, insert, make_lists, make_rooms, note_empty, reserve_keys};
use crate::reasons::is_reason_in;
use crate::refutes::find_refuting;
use crate::visits::{Mark, run};
use crate::watches::Lists;
use asp_trail::{Entry, Trail, Why};
use slab::Slab;
use std::alloc::{AllocError, Global};
use std::marker::Model;
use theory_form::{Assignment, Clause, ClauseId, Lit, Var};

/// The clauses of a search under keys, and its trail.
///
/// Contracts see the clauses by key, the entries of the trail, the newest first, and the number of places: a variable has
/// one where its number is below that. Keys are given out again after `forget`.
#[derive(Drop)]
pub struct Store {
    alloc: Global,
    clauses: Slab<Kept>,
    lists: Lists,
    trail: Trail,
    empties: Vec<usize>,
    pending: Vec<usize>,
    marks: Vec<Mark>,
    top: Mark,
}

impl Model for Store {
    ghost use Rattle.std.specs.Prelude.{vec_capacity};
    ghost use Rattle.asp_store.specs.Store.{State};
    ghost use Rattle.asp_store.specs.Watch.{IsWatchStore, clauses_of};

    ghost Value = { State };

    ghost view = { λ s. record { clauses = clauses_of s.clauses.slots; entries = s.trail.entries; places = s.trail.places; next_key = s.clauses.vacant_key } };

    ghost invariant = { λ s. IsWatchStore s.clauses.slots s.lists s.empties.items s.pending.items s.trail.places s.trail.entries s.marks.items s.top (vec_capacity s.marks) };
}

impl Store {
    /// The empty store, without places.
    pub fn new(alloc: Global) -> Self
        ensures { result ≡ record { clauses = []; entries = []; places = 0; next_key = 0 } }
    {
        Store {
            alloc,
            clauses: Slab::new(alloc),
            lists: Lists::new(alloc),
            trail: Trail::new(alloc),
            empties: Vec::new(alloc),
            pending: Vec::new(alloc),
            marks: Vec::new(alloc),
            top: Mark { head: 0, done: 0 },
        }
    }

    /// The assignment in which the literals of the trail are true.
    pub fn assignment(&self) -> &Assignment
        ensures value { result.now ≡ assigned self.now }
        ensures trail { IsTrail self.now.places self.now.entries }
        ensures store { IsStore self.now.clauses self.now.entries self.now.places }
    {
        self.trail.assignment()
    }

    /// How many levels are open.
    pub fn level(&self) -> u64
        ensures { result ≡ level_of self.now.entries }
    {
        self.trail.level()
    }

    /// How many places there are: a variable has one where its number is below this.
    pub fn places(&self) -> u64
        ensures { result ≡ self.now.places }
    {
        self.trail.places()
    }

    /// Why and at which level a variable was assigned, and `None` exactly where it is not.
    pub fn why(&self, v: Var) -> Option<(Why, u64)>
        ensures { result ≡ why_in self.now.entries v.0 }
    {
        self.trail.why(v)
    }

    /// The assigned literals in the order in which they were assigned.
    pub fn trail(&self) -> &[Lit]
        ensures { result.now ≡ map (λ e. e.lit) (reverse self.now.entries) }
    {
        self.trail.lits()
    }

    /// The assigned literals with their reasons, in the order in which they were assigned.
    pub fn entries(&self) -> &[Entry]
        ensures { result.now ≡ reverse self.now.entries }
    {
        self.trail.entries()
    }

    /// The literals of a clause, in ascending order, each once. `None` exactly where the store has no clause of that key.
    pub fn clause(&self, id: ClauseId) -> Option<&[Lit]>
        ensures value { option_copied result ≡ clause_at self.now.clauses id.0 }
        ensures ascending { IfSome result (λ c. IsAscending c.now) }
    {
        match self.clauses.get(id.0 as usize) {
            Some(kept) => Some(kept.clause.as_slice()),
            None => None,
        }
    }

    /// Makes places for the variables up to `vars`. Only memory can run out, and then nothing changes.
    pub fn reserve_trail(&mut self, vars: u64) -> Result<(), AllocError>
        ensures ok { OnOk result (self.new ≡ record self.old { places = max self.old.places (vars + 1) }) }
        ensures err { OnErr result (self.new ≡ self.old) }
    {
        make_lists(self.alloc, &mut self.lists, &mut self.marks, vars)?;
        self.trail.reserve(vars)?;
        Ok(())
    }

    /// Opens a level and assigns a literal, whose variable has a place and no value. It takes no memory.
    pub fn decide(&mut self, l: Lit)
        requires within { l.var.0 < self.old.places }
        requires free { IsFreeIn (assigned self.old) l }
        ensures { self.new ≡ record self.old { entries = record { lit = l; why = Why.Decision } ∷ self.old.entries } }
    {
        let _trail = self.trail.assignment();
        self.marks.push_reserved(self.top);
        self.trail.push(Entry {
            lit: l,
            why: Why::Decision,
        });
    }

    /// Assigns a literal that a clause implies: the clause holds it, and its other literals are all false. It takes no
    /// memory.
    pub fn assign(&mut self, l: Lit, why: Why)
        requires { IsImpliedBy self.old.clauses (assigned self.old) l why }
        ensures { self.new ≡ record self.old { entries = record { lit = l; why = why } ∷ self.old.entries } }
    {
        self.trail.push(Entry { lit: l, why });
    }

    /// Takes back what was assigned above a level. It takes no memory.
    pub fn back(&mut self, level: u64)
        ensures { self.new ≡ record self.old { entries = back level self.old.entries } }
    {
        let k = level as usize;
        if k < self.marks.len() {
            self.top = self.marks[k];
            self.marks.truncate(k);
            self.trail.back(level);
        }
    }

    /// The key that the next `add` answers, so that a caller can make room for it before. No clause has it.
    pub fn next_key(&self) -> ClauseId
        ensures value { result.0 ≡ self.now.next_key }
        ensures free { clause_at self.now.clauses result.0 ≡ None }
    {
        ClauseId(self.clauses.vacant_key() as u64)
    }

    /// Adds a clause and answers its key, which no clause had: that of `next_key`. It makes places for the variables of the
    /// clause. Only memory can run out, and then nothing changes.
    pub fn add(&mut self, c: &Clause) -> Result<ClauseId, AllocError>
        ensures added { IfOk result (λ id. Adds self.old.clauses self.new.clauses id.0 c.now) }
        ensures key { IfOk result (λ id. id.0 ≡ self.old.next_key) }
        ensures ok { OnOk result (self.new ≡ record self.old { clauses = self.new.clauses; places = max self.old.places (places_of c.now); next_key = self.new.next_key }) }
        ensures err { OnErr result (self.new ≡ self.old) }
    {
        let lits = c.lits();
        make_rooms(self.alloc, &mut self.lists, &mut self.marks, lits)?;
        drop_done(&mut self.pending, &mut self.top, self.marks.len());
        reserve_keys(&mut self.pending, &mut self.empties)?;
        let key = insert(
            self.alloc,
            &mut self.clauses,
            &mut self.lists,
            &mut self.trail,
            lits,
        )?;
        note_empty(&mut self.empties, key, lits);
        self.pending.push_reserved(key);
        Ok(ClauseId(key as u64))
    }

    /// Whether a clause is the reason of an assigned literal. It costs a look at each literal of the clause.
    pub fn is_reason(&self, id: ClauseId) -> bool
        ensures { IsTrue result ↔ IsReasonOfSome self.now.entries id.0 }
    {
        // Its clauses tell that no variable stands twice on the trail.
        let _assignment = self.trail.assignment();
        match self.clauses.get(id.0 as usize) {
            Some(kept) => is_reason_in(&self.trail, kept.clause.as_slice(), id),
            None => false,
        }
    }

    /// Takes a clause out, and answers whether it did. It answers false exactly where there is no such clause or it is the
    /// reason of an assigned literal (`is_reason`), and then nothing changes. It takes no memory.
    pub fn forget(&mut self, id: ClauseId) -> bool
        ensures refused { IsFalse result ↔ ((clause_at self.old.clauses id.0 ≡ None) ⊎ IsReasonOfSome self.old.entries id.0) }
        ensures gone { IsTrue result → Removes self.old.clauses self.new.clauses id.0 }
        ensures rest { self.new ≡ record self.old { clauses = self.new.clauses; next_key = self.new.next_key } }
        ensures unchanged { IsFalse result → self.new ≡ self.old }
    {
        if self.is_reason(id) {
            return false;
        }
        let key = id.0 as usize;
        if !self.clauses.contains(key) {
            return false;
        }
        let _kept = self.clauses.remove(key);
        true
    }

    /// A clause each of whose literals is the opposite of one of these, and `None` exactly where there is none. The empty clause
    /// is such a clause whatever is assumed. It looks at the clauses that watch the opposite of an assumption, and looks each
    /// of their literals up among the assumptions.
    pub fn refuting(&self, assume: &[Lit]) -> Option<ClauseId>
        ensures { MatchOption result (NoneRefuting self.now.clauses assume.now) (λ id. IsRefuting self.now.clauses assume.now id.0) }
    {
        let places = self.trail.places();
        match find_refuting(
            &self.clauses,
            &self.lists,
            self.empties.as_slice(),
            assume,
            places,
        ) {
            Some(key) => Some(ClauseId(key as u64)),
            None => None,
        }
    }

    /// Assigns literals that clauses imply until a clause is false, which it answers, or no clause is unit or false. Only
    /// memory can run out, and then the trail may have grown.
    pub fn propagate(&mut self) -> Result<Option<ClauseId>, AllocError>
        ensures same { self.new ≡ record self.old { entries = self.new.entries } }
        ensures grew { Grew self.old.clauses self.old.places self.old.entries self.new.entries }
        ensures answer { IfOk result (λ o. MatchOption o (AllSettled self.new.clauses (assigned self.new)) (λ id. IsConflict self.new.clauses (assigned self.new) id.0)) }
    {
        let found = run(
            &mut self.clauses,
            &mut self.lists,
            &mut self.trail,
            self.pending.as_slice(),
            self.marks.as_slice(),
            &mut self.top,
        )?;
        Ok(found)
    }
}
