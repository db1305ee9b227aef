// Whether terms and atoms are equal.
ghost use Rattle.std.specs.Prelude.{◌≡◌, ◌↔◌, IsTrue};

use crate::terms::{Atom, Term};

impl Term {
    /// Whether the two are the same term, written alike but for parentheses and blanks.
    pub fn equals(&self, other: &Term) -> bool
        ensures { IsTrue result ↔ (self.now ≡ other.now) }
    {
        same_term(self, other)
    }
}

impl Atom {
    /// Whether the two are the same atom, written alike but for parentheses and blanks.
    pub fn equals(&self, other: &Atom) -> bool
        ensures { IsTrue result ↔ (self.now ≡ other.now) }
    {
        self.name == other.name && same_terms(self.terms.as_slice(), other.terms.as_slice())
    }
}

// A loop along the first operands, as a chain of operators is as deep as it is long.
#[cycle(equals)]
fn same_term(one: &Term, other: &Term) -> bool
    ensures { IsTrue result ↔ (one.now ≡ other.now) }
{
    let mut one = one;
    let mut other = other;
    loop {
        match (one, other) {
            (Term::Int(a), Term::Int(b)) => return *a == *b,
            (Term::Str(a), Term::Str(b)) => return *a == *b,
            (Term::Const(a), Term::Const(b)) => return *a == *b,
            (Term::Var(a), Term::Var(b)) => return *a == *b,
            (Term::Any, Term::Any) => return true,
            (Term::Fun(a, s), Term::Fun(b, t)) => return *a == *b
                && same_terms(s.get().as_slice(), t.get().as_slice()),
            (Term::Tuple(s), Term::Tuple(t)) => return same_terms(s.as_slice(), t.as_slice()),
            (Term::Minus(a), Term::Minus(b)) => (one, other) = (a.get(), b.get()),
            (Term::Sum(a, o, b), Term::Sum(c, p, d)) if *o == *p && same_term(b.get(), d.get()) => (
                one, other,
            ) = (a.get(), c.get()),
            (Term::Product(a, o, b), Term::Product(c, p, d))
                if *o == *p && same_term(b.get(), d.get()) => (one, other) = (a.get(), c.get()),
            (Term::Range(a, b), Term::Range(c, d)) if same_term(b.get(), d.get()) => (one, other) =
                (a.get(), c.get()),
            _ => return false,
        }
    }
}

#[cycle(equals)]
fn same_terms(one: &[Term], other: &[Term]) -> bool
    ensures { IsTrue result ↔ (one.now ≡ other.now) }
{
    if one.len() != other.len() {
        return false;
    }
    for (place, term) in one.iter().enumerate() {
        if !same_term(term, &other[place]) {
            return false;
        }
    }
    true
}
