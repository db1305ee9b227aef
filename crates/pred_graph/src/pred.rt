// Predicates.
ghost use Rattle.std.specs.Prelude.{◌≡◌, ◌&&◌, ◌==◌, IfOk};
ghost use Rattle.pred_graph.specs.Predicates.{pred_of as predicate_of};

use ap_syntax::{Atom, Text};
use std::alloc::{AllocError, Global};
use std::hash::{Hash, Hasher};

/// A predicate.
#[derive(Debug, Drop)]
pub struct Pred {
    /// Its name.
    pub name: Text,
    /// How many arguments its atoms have.
    pub arity: u32,
}

impl PartialEq for Pred {
    ghost use Rattle.std.specs.Prelude.{◌&&◌, ◌==◌};
    ghost use Rattle.std.specs.Str.{bytes_eq};
    ghost use Rattle.std.specs.Cmp.Rules.{comparing};
    ghost use borrow.Author.Rules.{rules};

    ghost eq = { λ p q. bytes_eq p.name q.name && (p.arity == q.arity) };

    ghost laws = { Prim.search (comparing, rules) };

    fn eq(&self, other: &Pred) -> bool {
        self.name == other.name && self.arity == other.arity
    }
}

impl Eq for Pred {
    ghost use Rattle.std.specs.Cmp.Rules.{comparing};
    ghost use borrow.Author.Rules.{rules};

    ghost laws = { Prim.search (comparing, rules) };
}

impl Hash for Pred {
    ghost use Rattle.std.specs.Prelude.{◌++◌};
    ghost use Rattle.std.specs.Hash as fed;
    ghost use Rattle.std.specs.Cmp.Rules.{hashing};
    ghost use borrow.Author.Rules.{rules};

    ghost hash_input = { λ p. fed.str p.name ++ fed.u32 p.arity };

    ghost respects_eq = { Prim.search (hashing, rules) };

    fn hash<H: Hasher>(&self, state: &mut H) {
        self.name.as_str().hash(state);
        self.arity.hash(state);
    }
}

impl Pred {
    /// An equal predicate. It fails for want of memory alone.
    pub fn copy(&self, alloc: Global) -> Result<Pred, AllocError>
        ensures { IfOk result (λ p. p ≡ self.now) }
    {
        Ok(Pred {
            name: self.name.copy(alloc)?,
            arity: self.arity,
        })
    }
}

/// The predicate of an atom. It fails for want of memory alone; an atom of 2^32 arguments or more, whose number is no `u32`,
/// answers that too.
pub fn pred_of(alloc: Global, atom: &Atom) -> Result<Pred, AllocError>
    ensures { IfOk result (λ p. p ≡ predicate_of atom.now) }
{
    let Ok(arity) = u32::try_from(atom.terms.len()) else {
        return Err(AllocError);
    };
    Ok(Pred {
        name: atom.name.copy(alloc)?,
        arity,
    })
}
