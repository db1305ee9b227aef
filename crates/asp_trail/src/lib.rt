//! The trail of a search: the assigned literals in the order in which they were assigned, with why and at which level.
#![tactic(auto)]

ghost use Rattle.std.specs.Prelude.{◌≡◌, ◌+◌, ◌<◌, ◌≤◌, ◌^◌, [], ◌∷◌, length, map, reverse, max, OnOk, OnErr, IfOk, vec_capacity};
ghost use Rattle.theory_form.specs.Numbers.{grown};
ghost use Rattle.theory_form.specs.Truth.{IsFreeIn};
ghost use Rattle.asp_trail.specs.Trail.{values_of, level_of, level_after, why_in, back, no_reason, IsTrail};

use std::alloc::{AllocError, Global};
use std::marker::Model;
use theory_form::{Assignment, ClauseId, Lit, Var};

/// Why a literal was assigned: a level was opened with it, or it is implied by this clause and the literals before it.
#[derive(Clone, Copy, PartialEq, Eq, Debug)]
pub enum Why {
    Decision,
    Clause(ClauseId),
}

/// An assigned literal, with why.
#[derive(Clone, Copy, PartialEq, Eq, Debug)]
pub struct Entry {
    pub lit: Lit,
    pub why: Why,
}

// Why and at which level a variable was assigned.
#[derive(Clone, Copy, PartialEq, Eq, Debug)]
pub struct Reason {
    pub why: Why,
    pub level: u64,
}

/// The assigned literals. Contracts see their entries, the newest first, and how many places there are: a variable has
/// one where its number is below that. The levels are counted by the decisions.
#[derive(Drop)]
pub struct Trail {
    values: Assignment,
    entries: Vec<Entry>,
    lits: Vec<Lit>,
    reasons: Vec<Reason>,
    level: u64,
}

impl Model for Trail {
    ghost use Rattle.std.specs.Prelude.{ℕ, reverse, length, vec_capacity};
    ghost use Rattle.asp_trail.specs.Trail.{TrailView, HoldsTrail};

    ghost Value = { TrailView };

    ghost view = { λ t. record { entries = reverse t.entries.items; places = length t.values } };

    ghost invariant = { λ t. HoldsTrail t.values t.entries.items t.lits.items t.reasons.items t.level (vec_capacity t.entries) (vec_capacity t.lits) };
}

// How many places there are for the variables up to `vars`. So many as 2^64 fit no memory.
fn places_up_to(vars: u64) -> Result<usize, AllocError>
    ensures { IfOk result (λ places. places ≡ vars + 1) }
{
    match vars.checked_add(1) {
        Some(places) => Ok(places as usize),
        None => Err(AllocError),
    }
}

// Makes room for so many items in all.
fn reserve_total<T>(items: &mut Vec<T>, wanted: usize) -> Result<(), AllocError>
    ensures items { items.new.items ≡ items.old.items }
    ensures ok { OnOk result (wanted ≤ vec_capacity items.new) }
    ensures wider { vec_capacity items.old ≤ vec_capacity items.new }
{
    let len = items.len();
    if len < wanted {
        items.reserve(wanted - len)?;
    }
    Ok(())
}

// Makes places for reasons.
fn grow_reasons(reasons: &mut Vec<Reason>, places: usize) -> Result<(), AllocError>
    ensures ok { OnOk result (reasons.new.items ≡ grown reasons.old.items places no_reason) }
    ensures err { OnErr result (reasons.new.items ≡ reasons.old.items) }
{
    if reasons.len() < places {
        let none = Reason {
            why: Why::Decision,
            level: 0,
        };
        reasons.resize(places, none)?;
    }
    Ok(())
}

// The level of a literal that is assigned above this one.
fn next_level(why: Why, level: u64) -> u64
    requires { level + 1 < 2 ^ 64 }
    ensures { result ≡ level_after why level }
{
    match why {
        Why::Decision => level + 1,
        Why::Clause(_) => level,
    }
}

impl Trail {
    /// The empty trail, without places.
    pub fn new(alloc: Global) -> Self
        ensures { result ≡ record { entries = []; places = 0 } }
    {
        Trail {
            values: Assignment::new(alloc),
            entries: Vec::new(alloc),
            lits: Vec::new(alloc),
            reasons: Vec::new(alloc),
            level: 0,
        }
    }

    /// The assignment in which the literals are true.
    pub fn assignment(&self) -> &Assignment
        ensures value { result.now ≡ values_of self.now.places self.now.entries }
        ensures trail { IsTrail self.now.places self.now.entries }
    {
        &self.values
    }

    /// The literals with their reasons, the oldest first.
    pub fn entries(&self) -> &[Entry]
        ensures value { result.now ≡ reverse self.now.entries }
        ensures trail { IsTrail self.now.places self.now.entries }
    {
        self.entries.as_slice()
    }

    /// The literals, the oldest first.
    pub fn lits(&self) -> &[Lit]
        ensures value { result.now ≡ map (λ e. e.lit) (reverse self.now.entries) }
        ensures trail { IsTrail self.now.places self.now.entries }
    {
        self.lits.as_slice()
    }

    /// Why and at which level a variable was assigned, and `None` exactly where it is not.
    pub fn why(&self, v: Var) -> Option<(Why, u64)>
        ensures { result ≡ why_in self.now.entries v.0 }
    {
        match self.values.value(v) {
            None => None,
            Some(_) => {
                let reason = self.reasons[v.0 as usize];
                Some((reason.why, reason.level))
            }
        }
    }

    /// How many levels are open.
    pub fn level(&self) -> u64
        ensures { result ≡ level_of self.now.entries }
    {
        self.level
    }

    /// How many places there are.
    pub fn places(&self) -> u64
        ensures { result ≡ self.now.places }
    {
        self.values.places()
    }

    /// Makes places for the variables up to `vars`. Only memory can run out, and then nothing changes.
    pub fn reserve(&mut self, vars: u64) -> Result<(), AllocError>
        ensures ok { OnOk result (self.new ≡ record self.old { places = max self.old.places (vars + 1) }) }
        ensures err { OnErr result (self.new ≡ self.old) }
        ensures trail { OnOk result (IsTrail self.old.places self.old.entries) }
    {
        let places = places_up_to(vars)?;
        reserve_total(&mut self.entries, places)?;
        reserve_total(&mut self.lits, places)?;
        grow_reasons(&mut self.reasons, places)?;
        self.values.reserve(vars)?;
        Ok(())
    }

    /// Assigns a literal whose variable has a place and no value. A decision opens a level. It takes no memory.
    pub fn push(&mut self, entry: Entry)
        requires within { entry.lit.var.0 < self.old.places }
        requires free { IsFreeIn (values_of self.old.places self.old.entries) entry.lit }
        ensures { self.new ≡ record self.old { entries = entry ∷ self.old.entries } }
    {
        self.entries.push_reserved(entry);
        self.lits.push_reserved(entry.lit);
        self.values.set(entry.lit);
        self.level = next_level(entry.why, self.level);
        self.reasons[entry.lit.var.0 as usize] = Reason {
            why: entry.why,
            level: self.level,
        };
    }

    /// Takes back what was assigned above a level. It takes no memory.
    pub fn back(&mut self, level: u64)
        ensures { self.new ≡ record self.old { entries = back level self.old.entries } }
    {
        while self.level > level {
            match self.entries.pop() {
                None => unreachable!(),
                Some(entry) => {
                    let _lit = self.lits.pop();
                    self.values.clear(entry.lit.var);
                    if let Why::Decision = entry.why {
                        self.level -= 1;
                    }
                }
            }
        }
    }
}
