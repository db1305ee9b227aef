// Preference statements.
use crate::terms::{Atom, Literal, Term};
use crate::text::Text;
use sqlite_items::{Boxed, Items};

/// A formula over atoms, which an answer set satisfies or not. A formula in parentheses is that formula, so `(a & b) & c`
/// is an `And` whose first member is an `And`.
#[derive(Debug, Drop)]
pub enum Formula {
    /// An atom.
    Atom(Atom),
    /// `not` and a formula.
    Not(Boxed<Formula>),
    /// Two or more formulas joined by `&`.
    And(Items<Formula>),
    /// Two or more formulas joined by `|`.
    Or(Items<Formula>),
}

/// What a rank of an element stands for.
#[derive(Debug, Drop)]
pub enum Target {
    /// A formula.
    For(Formula),
    /// `**name`: another preference statement, by its name.
    Name(Text),
}

/// A rank of an element: `weights :: target`.
#[derive(Debug, Drop)]
pub struct Ranked {
    /// The weights before `::`. The empty list where there are none. Its length has no limit.
    pub weights: Items<Term>,
    /// What stands behind them.
    pub target: Target,
}

/// An element of a preference statement: `rank >> .. >> rank || given : domain`.
#[derive(Debug, Drop)]
pub struct Element {
    /// The byte of the text, from 0, at which its first token begins.
    pub at: u32,
    /// The ranks, the best one first. There is at least one.
    pub ranks: Items<Ranked>,
    /// What stands behind `||`.
    pub given: Option<Ranked>,
    /// The conjunction behind `:`, which says for which values of its variables the element is there. The empty list
    /// where there is no colon.
    pub domain: Items<Literal>,
}

/// A preference statement `#preference(name,kind){elements}.`
#[derive(Debug, Drop)]
pub struct Preference {
    /// The number of its file, from 1. 0 where the text is of no file.
    pub file: u32,
    /// The byte of the text, from 0, at which its first token begins.
    pub at: u32,
    /// The name of the statement.
    pub name: Text,
    /// The type, by its canonical text: `subset` or `less(weight)`.
    pub kind: Text,
    /// The elements, in the order of the text.
    pub elements: Items<Element>,
}
