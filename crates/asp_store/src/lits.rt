// The literals of a clause, as the store keeps them.
ghost use Rattle.std.specs.Prelude.{◌≡◌, max, IfOk, OnErr, OnOk};
ghost use Rattle.theory_form.specs.Literals.{IsAscending};
ghost use Rattle.asp_trail.specs.Trail.{IsTrail};
ghost use Rattle.asp_store.specs.Store.{places_of};

use asp_trail::Trail;
use smallvec::SmallVec;
use std::alloc::{AllocError, Global};
use std::marker::Model;
use theory_form::Lit;

/// A short list of literals: up to two stand in place.
#[derive(Drop)]
pub struct Lits {
    list: SmallVec<Lit, 2>,
}

impl Model for Lits {
    ghost use Rattle.std.specs.Prelude.{List};
    ghost use Rattle.theory_form.specs.declared.literals.Lit.{Lit};

    ghost Value = { List Lit };

    ghost view = { λ l. l.list.items };
}

impl Lits {
    pub fn from_slice(alloc: Global, lits: &[Lit]) -> Result<Lits, AllocError>
        ensures { IfOk result (λ l. l ≡ lits.now) }
    {
        Ok(Lits {
            list: SmallVec::from_slice(alloc, lits)?,
        })
    }

    pub fn as_slice(&self) -> &[Lit]
        ensures { result.now ≡ self.now }
    {
        self.list.as_slice()
    }
}

/// Makes places for the variables of a clause, of which the last is the greatest.
pub fn reserve_clause(trail: &mut Trail, lits: &[Lit]) -> Result<(), AllocError>
    requires { IsAscending lits.now }
    ensures ok { OnOk result (trail.new ≡ record trail.old { places = max trail.old.places (places_of lits.now) }) }
    ensures err { OnErr result (trail.new ≡ trail.old) }
    ensures trail { IsTrail trail.old.places trail.old.entries }
{
    let _assignment = trail.assignment();
    match lits.last() {
        Some(l) => trail.reserve(l.var.0),
        None => Ok(()),
    }
}
