// A term with the knowledge whether it may be an atom.
ghost use Rattle.std.specs.Prelude.{◌≡◌, IfOk};
ghost use Rattle.literal_parse.specs.Operands.{BareOr, term_of, tree_of};

use crate::error::Stop;
use ap_syntax::{Atom, Term};
use sqlite_items::Boxed;
use std::alloc::{AllocError, Global};

/// A term that was read.
#[derive(Debug, Drop)]
pub enum Operand {
    /// A name with arguments or without, and no parentheses round it: it may be an atom.
    Bare(Atom),
    /// Any other term.
    Other(Term),
}

impl Operand {
    /// The term. It fails for want of memory alone.
    pub fn into_term(self, alloc: Global) -> Result<Term, AllocError>
        ensures { IfOk result (λ term. term ≡ tree_of self) }
    {
        match self {
            Operand::Bare(atom) => term_of(alloc, atom),
            Operand::Other(term) => Ok(term),
        }
    }

    /// The term, boxed. It fails for want of memory alone.
    pub fn boxed(self, alloc: Global) -> Result<Boxed<Term>, AllocError>
        ensures { IfOk result (λ term. term ≡ tree_of self) }
    {
        Boxed::new(alloc, self.into_term(alloc)?)
    }

    /// The atom, where it may be one. `Syntax` comes where it is any other term; no other error comes.
    pub fn into_atom(self) -> Result<Atom, Stop>
        ensures { BareOr self result }
    {
        match self {
            Operand::Bare(atom) => Ok(atom),
            Operand::Other(_) => Err(Stop::Syntax),
        }
    }
}

// An atom as a term.
fn term_of(alloc: Global, atom: Atom) -> Result<Term, AllocError>
    ensures { IfOk result (λ term. term ≡ term_of atom) }
{
    let Atom { name, terms } = atom;
    if terms.is_empty() {
        Ok(Term::Const(name))
    } else {
        Ok(Term::Fun(name, Boxed::new(alloc, terms)?))
    }
}
