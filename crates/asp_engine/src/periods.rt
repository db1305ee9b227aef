// Open queries and their periods.
ghost use Rattle.std.specs.Prelude.{◌≡◌, ◌+◌, ◌*◌, ◌^◌, ◌<◌, ◌++◌, ◌∷◌, [], List, length, nat_le, OnErr, OnOk};
ghost use Rattle.theory_form.specs.declared.literals.ClauseId.{ClauseId as Id};
ghost use Rattle.asp_engine.specs.Turned.{turned};

use sqlite_items::Items;
use std::alloc::{AllocError, Global};
use theory_form::{ClauseId, Lit};

/// A period of a query. The j-th ends when so many times j clauses were learned in it by the query as the engine says (`span`).
#[derive(Drop)]
pub struct Period {
    /// Its number, counted from 1.
    pub number: u64,
    /// The numbers of the clauses that the query learned in it, ascending.
    pub learned: Items<ClauseId>,
}

/// An open query: what it assumes, and its present period.
#[derive(Drop)]
pub struct Query {
    pub assume: Items<Lit>,
    pub period: Period,
}

// Whether so many clauses are those of a whole period.
fn is_whole(span: u64, number: u64, learned: usize) -> bool
    ensures { result ≡ nat_le (span * number) learned }
{
    match span.checked_mul(number) {
        Some(most) => most <= learned as u64,
        None => false,
    }
}

impl Period {
    /// The first period of a query.
    pub fn first(alloc: Global) -> Self
        ensures { result ≡ record { number = 1; learned = [] } }
    {
        Period {
            number: 1,
            learned: Items::new(alloc),
        }
    }

    // Puts the number of a clause behind the others. Only memory can run out, and then nothing changes.
    pub(crate) fn enter(&mut self, id: ClauseId) -> Result<(), AllocError>
        ensures ok { OnOk result (self.new ≡ record self.old { learned = self.old.learned ++ id ∷ [] }) }
        ensures err { OnErr result (self.new ≡ self.old) }
    {
        self.learned.push(id)?;
        Ok(())
    }

    // Takes the last number away.
    pub(crate) fn leave(&mut self)
        ensures { (ids : List Id) (id : Id) → self.old.learned ≡ ids ++ id ∷ [] → self.new ≡ record self.old { learned = ids } }
    {
        let _last = self.learned.pop();
    }

    // Begins the next period, where the clauses are those of a whole one.
    pub(crate) fn turn(&mut self, alloc: Global, span: u64)
        requires { self.old.number + 1 < 2 ^ 64 }
        ensures { self.new ≡ turned span self.old }
    {
        if is_whole(span, self.number, self.learned.len()) {
            self.number += 1;
            self.learned = Items::new(alloc);
        }
    }
}
