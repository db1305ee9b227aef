// Clauses.
ghost use Rattle.std.specs.Prelude.{◌≡◌, ◌↔◌, IsTrue, IfOk, Contains};
ghost use Rattle.theory_form.specs.declared.literals.Lit.{Lit as Literal};
ghost use Rattle.theory_form.specs.Literals.{IsAscending};

use crate::literals::Lit;
use std::alloc::{AllocError, Global};
use std::cmp::Ordering;
use std::marker::Model;

/// A disjunction: the list of its literals, in ascending order without repeats. The empty one is never true. It may hold
/// a literal and its opposite.
#[derive(Drop)]
pub struct Clause {
    list: Vec<Lit>,
}

impl Model for Clause {
    ghost use Rattle.std.specs.Prelude.{List};
    ghost use Rattle.theory_form.specs.declared.literals.Lit.{Lit};

    ghost Value = { List Lit };

    ghost use Rattle.theory_form.specs.Literals.{IsAscending};

    ghost view = { λ c. c.list.items };

    ghost invariant = { λ c. IsAscending c.list.items };
}

/// Whether the literals ascend without repeats.
pub fn is_ascending(lits: &[Lit]) -> bool
    ensures { IsTrue result ↔ IsAscending lits.now }
{
    for i in 1..lits.len() {
        if lits[i - 1].cmp(&lits[i]) != Ordering::Less {
            return false;
        }
    }
    true
}

impl Clause {
    /// The clause of these literals, which ascend without repeats (`is_ascending` tells). It takes no memory.
    pub fn new(lits: Vec<Lit>) -> Self
        requires { IsAscending lits.items }
        ensures { result ≡ lits.items }
    {
        Clause { list: lits }
    }

    /// The clause of these literals, in whatever order and however often each stands there. Only memory can run out.
    pub fn sorted(lits: Vec<Lit>) -> Result<Self, AllocError>
        ensures ascending { IfOk result IsAscending }
        ensures same { IfOk result (λ c. (l : Literal) → Contains c l ↔ Contains lits.items l) }
    {
        let mut lits = lits;
        lits.sort()?;
        lits.dedup();
        Ok(Clause { list: lits })
    }

    /// Its literals.
    pub fn lits(&self) -> &[Lit]
        ensures literals { result.now ≡ self.now }
        ensures ascending { IsAscending self.now }
    {
        self.list.as_slice()
    }

    /// An equal clause. Only memory can run out.
    pub fn copy(&self, alloc: Global) -> Result<Clause, AllocError>
        ensures { IfOk result (λ c. c ≡ self.now) }
    {
        Ok(Clause {
            list: Vec::from_slice(alloc, self.list.as_slice())?,
        })
    }
}
