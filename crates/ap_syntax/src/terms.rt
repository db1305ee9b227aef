// Terms, atoms and literals.
use crate::text::Text;
use sqlite_items::{Boxed, Items};

/// An operator of sums.
#[derive(Clone, Copy, Debug, PartialEq, Eq)]
pub enum SumOp {
    /// `+`
    Plus,
    /// `-`
    Less,
}

/// An operator of products.
#[derive(Clone, Copy, Debug, PartialEq, Eq)]
pub enum ProductOp {
    /// `*`
    Times,
    /// `/`, the quotient rounded toward 0
    Over,
    /// `\`, the remainder of that division
    Rest,
}

/// A relation of two values in the order of values.
#[derive(Clone, Copy, Debug, PartialEq, Eq)]
pub enum Rel {
    /// `=`, which `==` is another spelling of
    Eq,
    /// `!=`
    Ne,
    /// `<`
    Lt,
    /// `<=`
    Le,
    /// `>`
    Gt,
    /// `>=`
    Ge,
}

/// A term, as it is written. A term in parentheses is that term, so no tree has parentheses.
#[derive(Debug)]
pub enum Term {
    /// A number as it is written, from 0 to 2,147,483,647. A negative one is the `Minus` of a number.
    Int(i64),
    /// A string, by its characters: without its quotes, and with a backslash, a quote or a line feed for each escape.
    Str(Text),
    /// A symbolic constant, by its name.
    Const(Text),
    /// A variable, by its name.
    Var(Text),
    /// `_`, a variable of its own at each place.
    Any,
    /// A compound: a name and its arguments, 1 to 32 of them. They are boxed, so that other terms are small.
    Fun(Text, Boxed<Items<Term>>),
    /// A tuple of 0 to 32 members.
    Tuple(Items<Term>),
    /// The negation of a number.
    Minus(Boxed<Term>),
    /// A sum or a difference.
    Sum(Boxed<Term>, SumOp, Boxed<Term>),
    /// A product, a quotient or a remainder.
    Product(Boxed<Term>, ProductOp, Boxed<Term>),
    /// An interval `a..b`, whose values are all integers from the one end to the other.
    Range(Boxed<Term>, Boxed<Term>),
}

/// A term is let go by a loop along its first operands: a chain of operators, as `1 + 2 + 3`, is as deep as it is long, and
/// a call for each of its operands could use up the stack.
impl Drop for Term {
    fn drop(mut self) {
        loop {
            match self {
                Term::Int(_) | Term::Any => return,
                Term::Str(_text) | Term::Const(_text) | Term::Var(_text) => return,
                Term::Fun(_name, terms) => return let_go(terms.into_inner()),
                Term::Tuple(terms) => return let_go(terms),
                Term::Minus(part) => self = part.into_inner(),
                Term::Sum(left, _, right) => {
                    let _right = right.into_inner();
                    self = left.into_inner();
                }
                Term::Product(left, _, right) => {
                    let _right = right.into_inner();
                    self = left.into_inner();
                }
                Term::Range(low, high) => {
                    let _high = high.into_inner();
                    self = low.into_inner();
                }
            }
        }
    }
}

/// Lets go of items.
fn let_go<T: Drop>(items: Items<T>) {
    let _items = items;
}

/// An atom: a predicate's name with its arguments.
#[derive(Debug, Drop)]
pub struct Atom {
    /// The name of the predicate.
    pub name: Text,
    /// The arguments, 0 to 32 of them. An atom without arguments is written without parentheses.
    pub terms: Items<Term>,
}

/// An atom, an atom under default negation, or a comparison. The terms of a comparison are boxed, so that a plain literal is
/// small.
#[derive(Debug, Drop)]
pub enum Literal {
    /// An atom.
    Pos(Atom),
    /// `not` and an atom.
    Not(Atom),
    /// A comparison of two terms.
    Compare(Boxed<Term>, Rel, Boxed<Term>),
}
