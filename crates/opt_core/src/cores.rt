//! The state of a search by several chains.
ghost use Rattle.std.specs.Prelude.{◌≡◌, ◌↔◌, ◌<◌, ◌≤◌, ◌++◌, [], ◌∷◌, None, Some, All, IsTrue, IsNone, IsSome, IfSome, IfOk, OnOk, OnErr, option_copied, length, slice_set};
ghost use Rattle.ground_form.specs.Programs.{numbered};
ghost use Rattle.ground_form.specs.declared.atoms.SetId.{SetId as Number};
ghost use Rattle.opt_core.specs.Numbers.{next_number, number_of, IsNewSet};
ghost use Rattle.opt_core.specs.States.{CoreView, begin, at_chain, with_new, with_passed};
ghost use Rattle.opt_core.specs.Folds as fold;
ghost use Rattle.opt_core.specs.Folds.{May, after, better_output, bettered, stuck_output, stopped};
ghost use Rattle.opt_core.specs.Permitted.{AreClosed};

use crate::chains::Chains;
use crate::events::{Event, Output, Passed};
use crate::met::Met;
use ground_form::{AtomSet, SetId};
use indexmap::IndexSet;
use std::alloc::{AllocError, Global};
use std::marker::Model;

/// The state of a search by 1 to 8 chains, each of which goes from an answer set to a preferred one until there is
/// none.
///
/// Contracts see a `CoreView`: the sets that were met, in order, each under its number from 1; which were passed, and
/// by which; which are printed, in order; the set of each chain that is open; and whether the search has ended. No
/// set is met twice.
#[derive(Drop)]
pub struct Core {
    met: Met,
    passed: Vec<Passed>,
    printed: IndexSet<SetId>,
    chains: Chains,
    ended: bool,
}

impl Model for Core {
    ghost use Rattle.opt_core.specs.States.{CoreView, HasMet};

    ghost Value = { CoreView };

    ghost view = { λ c. record { met = c.met; passed = c.passed.items; printed = c.printed.keys; chains = c.chains; ended = c.ended } };

    ghost invariant = { λ c. HasMet (record { met = c.met; passed = c.passed.items; printed = c.printed.keys; chains = c.chains; ended = c.ended }) };
}

impl Core {
    /// The state before the first event, of so many chains: 1 to 8, which are numbered from 0. It takes no memory.
    pub fn new(alloc: Global, chains: u8) -> Core
        requires some { 1 ≤ chains }
        requires few { chains ≤ 8 }
        ensures { result ≡ begin chains }
    {
        Core {
            met: Met::new(alloc),
            passed: Vec::new(alloc),
            printed: IndexSet::new(alloc),
            chains: Chains::new(chains),
            ended: false,
        }
    }

    /// The set of a number. None exactly where no set of that number was met.
    pub fn set(&self, id: SetId) -> Option<&AtomSet>
        ensures { option_copied result ≡ numbered self.now.met id.0 }
    {
        self.met.set(id)
    }

    /// The number of a set. None exactly where the set was not met. It looks by a hash of the members,
    /// and takes no memory.
    pub fn id(&self, set: &AtomSet) -> Option<SetId>
        ensures value { result ≡ number_of self.now.met set.now }
        ensures exact { (i : Number) → (result ≡ Some i) ↔ (numbered self.now.met i.0 ≡ Some set.now) }
        ensures none { IsNone result ↔ IsNewSet self.now.met set.now }
    {
        self.met.id(set)
    }

    /// The number of a chain's set. None exactly where the chain is not open, as where there is no such chain.
    pub fn chain_set(&self, chain: u8) -> Option<SetId>
        ensures value { result ≡ at_chain self.now.chains chain }
        ensures met { IfSome result (λ i. IsSome (numbered self.now.met i.0)) }
    {
        self.chains.at(chain)
    }

    /// Whether an event may be applied: a chain starts only where there is such a chain and it is closed, with a set
    /// that was not met and before the search has ended; a chain goes on or is stuck only where it is open; and the
    /// search ends once, when all chains are closed. It takes no memory.
    pub fn may(&self, event: &Event) -> bool
        ensures { IsTrue result ↔ May self.now event.now }
    {
        match event {
            Event::Start { chain, set } => {
                self.chains.is_closed(*chain) && self.id(set).is_none() && !self.ended
            }
            Event::Better { chain, .. } | Event::Stuck { chain } => {
                self.chain_set(*chain).is_some()
            }
            Event::Dry => self.chains.are_closed() && !self.ended,
        }
    }

    /// Applies an event. It has to be one that may be applied: `may` tells. Nothing is asked of the truth of what it
    /// says of the sets.
    ///
    /// `Start` answers `Nothing`. `Better` marks the chain's set as passed by the new one; it answers `Closed` where
    /// the new set was met before, and the chain is closed, and else `Nothing`. `Stuck` closes the chain, and answers
    /// `Print` where the set was not printed before, and else `Closed`. `Dry` answers `End`.
    ///
    /// Its one error is want of memory, and leaves the state as it was.
    pub fn apply(&mut self, event: &Event) -> Result<Output, AllocError>
        requires { May self.old event.now }
        ensures output { IfOk result (λ out. out ≡ fold.output self.old event.now) }
        ensures state { OnOk result (self.new ≡ after self.old event.now) }
        ensures kept { OnErr result (self.new ≡ self.old) }
    {
        match event {
            Event::Start { chain, set } => self.open(*chain, set),
            Event::Better { chain, set } => self.better(*chain, set),
            Event::Stuck { chain } => self.stuck(*chain),
            Event::Dry => {
                self.ended = true;
                Ok(Output::End)
            }
        }
    }

    /// The sets that were passed, in order, each with the one that passed it.
    pub fn passed(&self) -> &[Passed]
        ensures { result.now ≡ self.now.passed }
    {
        self.passed.as_slice()
    }

    /// The sets that are printed, in order.
    pub fn printed(&self) -> &[SetId]
        ensures { result.now ≡ self.now.printed }
    {
        self.printed.as_slice()
    }
}

impl Core {
    // A new set is met, and the chain has it.
    fn open(&mut self, chain: u8, set: &AtomSet) -> Result<Output, AllocError>
        requires chain { chain < length self.old.chains }
        requires new { IsNewSet self.old.met set.now }
        ensures output { IfOk result (λ out. out ≡ Output.Nothing) }
        ensures state { OnOk result (self.new ≡ with_new self.old chain set.now) }
        ensures kept { OnErr result (self.new ≡ self.old) }
    {
        let id = self.met.add(set)?;
        self.chains.put(chain, Some(id));
        Ok(Output::Nothing)
    }

    fn better(&mut self, chain: u8, set: &AtomSet) -> Result<Output, AllocError>
        requires { IsSome (at_chain self.old.chains chain) }
        ensures output { IfOk result (λ out. out ≡ better_output (number_of self.old.met set.now)) }
        ensures state { OnOk result (self.new ≡ bettered self.old chain set.now (at_chain self.old.chains chain)) }
        ensures kept { OnErr result (self.new ≡ self.old) }
    {
        let old = self.chains.open_at(chain);
        match self.id(set) {
            Some(by) => {
                self.passed.push(Passed { set: old, by })?;
                self.chains.put(chain, None);
                Ok(Output::Closed)
            }
            None => self.go_on(chain, old, set),
        }
    }

    // The chain's set is passed by a new one, which the chain has from now on.
    fn go_on(&mut self, chain: u8, old: SetId, set: &AtomSet) -> Result<Output, AllocError>
        requires chain { chain < length self.old.chains }
        requires new { IsNewSet self.old.met set.now }
        ensures output { IfOk result (λ out. out ≡ Output.Nothing) }
        ensures state { OnOk result (self.new ≡ with_new (with_passed self.old old (next_number self.old.met)) chain set.now) }
        ensures kept { OnErr result (self.new ≡ self.old) }
    {
        let by = self.met.next();
        self.passed.push(Passed { set: old, by })?;
        let opened = self.open(chain, set);
        if opened.is_err() {
            self.passed.pop();
        }
        opened
    }

    fn stuck(&mut self, chain: u8) -> Result<Output, AllocError>
        requires { IsSome (at_chain self.old.chains chain) }
        ensures output { IfOk result (λ out. out ≡ stuck_output self.old (at_chain self.old.chains chain)) }
        ensures state { OnOk result (self.new ≡ stopped self.old chain (at_chain self.old.chains chain)) }
        ensures kept { OnErr result (self.new ≡ self.old) }
    {
        let id = self.chains.open_at(chain);
        let Ok(added) = self.printed.insert(id) else {
            return Err(AllocError);
        };
        self.chains.put(chain, None);
        Ok(if added {
            Output::Print(id)
        } else {
            Output::Closed
        })
    }
}
