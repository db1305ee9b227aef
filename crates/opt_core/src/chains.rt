// The sets of the chains.
ghost use Rattle.std.specs.Prelude.{◌≡◌, ◌↔◌, ◌<◌, ◌≤◌, ℕ, None, Some, IsTrue, IsSome, length, replicate, slice_set};
ghost use Rattle.std.specs.List.{list_all};
ghost use Rattle.std.specs.Option.{is_none};
ghost use Rattle.opt_core.specs.States.{at_chain};

use arrayvec::ArrayVec;
use ground_form::SetId;
use std::marker::Model;

/// The number of the set of each chain, where it is open. Chains are numbered from 0.
#[derive(Drop)]
pub struct Chains {
    sets: ArrayVec<Option<SetId>, 8>,
}

impl Model for Chains {
    ghost use Rattle.std.specs.Prelude.{List, Option};
    ghost use Rattle.ground_form.specs.declared.atoms.SetId.{SetId as Number};

    ghost Value = { List (Option Number) };

    ghost view = { λ c. c.sets.items };
}

impl Chains {
    /// So many closed chains, at most 8.
    pub fn new(chains: u8) -> Chains
        requires { chains ≤ 8 }
        ensures { result ≡ replicate chains None }
    {
        let mut sets = ArrayVec::new();
        for _ in 0..chains {
            sets.push(None);
        }
        Chains { sets }
    }

    /// The set of a chain, if there is such a chain and it is open.
    pub fn at(&self, chain: u8) -> Option<SetId>
        ensures { result ≡ at_chain self.now chain }
    {
        *self.sets.get(chain as usize)?
    }

    /// The set of an open chain.
    pub fn open_at(&self, chain: u8) -> SetId
        requires { IsSome (at_chain self.now chain) }
        ensures set { at_chain self.now chain ≡ Some result }
        ensures within { chain < length self.now }
    {
        self.at(chain).unwrap()
    }

    /// Whether there is such a chain and it is closed.
    pub fn is_closed(&self, chain: u8) -> bool
        ensures { IsTrue result ↔ ((chain < length self.now) × (at_chain self.now chain ≡ None)) }
    {
        (chain as usize) < self.sets.len() && self.at(chain).is_none()
    }

    /// Whether all chains are closed.
    pub fn are_closed(&self) -> bool
        ensures { IsTrue result ↔ ((c : ℕ) → at_chain self.now c ≡ None) }
    {
        all_none(self.sets.as_slice())
    }

    /// From now on the chain has this set, or is closed.
    pub fn put(&mut self, chain: u8, set: Option<SetId>)
        requires { chain < length self.old }
        ensures { self.new ≡ slice_set self.old chain set }
    {
        self.sets[chain as usize] = set;
    }
}

fn all_none(sets: &[Option<SetId>]) -> bool
    ensures { result ≡ list_all is_none sets.now }
{
    sets.iter().all(|set| set.is_none())
}
