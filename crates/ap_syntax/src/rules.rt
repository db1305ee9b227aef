// Rules: heads, bodies, choices and aggregates.
use crate::terms::{Atom, Literal, Rel, Term};
use sqlite_items::{Boxed, Items};

/// One side of an aggregate or of a choice, to which its number is compared. The relation and the term stand as they
/// are written: on the left the term is before the relation, on the right behind it. A guard without a sign reads `<=`.
#[derive(Debug, Drop)]
pub struct Guard {
    /// The relation, read from left to right.
    pub rel: Rel,
    /// What the number is compared to.
    pub term: Term,
}

/// An element of a choice: `atom : condition`.
#[derive(Debug, Drop)]
pub struct ChoiceElement {
    /// The atom that is allowed where the condition holds.
    pub atom: Atom,
    /// The conjunction behind the colon; the empty one is true.
    pub condition: Items<Literal>,
}

/// An element of an aggregate: `terms : condition`.
#[derive(Debug, Drop)]
pub struct AggElement {
    /// The tuple that is counted or added, of at least one term. Its length has no limit.
    pub terms: Items<Term>,
    /// The conjunction behind the colon; the empty one is true.
    pub condition: Items<Literal>,
}

/// What an aggregate computes of its distinct tuples whose condition is true.
#[derive(Clone, Copy, Debug, PartialEq, Eq)]
pub enum Function {
    /// `#count`: how many they are.
    Count,
    /// `#sum`: the sum of their first members that are integers.
    Sum,
}

/// A part of a body. What few of them have is boxed, so that a plain literal is small.
#[derive(Debug, Drop)]
pub enum BodyItem {
    /// A literal.
    Plain(Literal),
    /// A conditional literal `literal : condition`: the literal for each instance whose condition is true.
    All {
        /// The byte of the text, from 0, at which its first token begins.
        at: u32,
        /// The literal before the colon.
        literal: Boxed<Literal>,
        /// The conjunction behind the colon; the empty one is true.
        condition: Items<Literal>,
    },
    /// An aggregate with its guards.
    Agg {
        /// Whether `not` stands before it.
        negated: bool,
        /// The guard on the left.
        left: Option<Boxed<Guard>>,
        /// What is computed.
        function: Function,
        /// The elements between the braces.
        elements: Boxed<Items<AggElement>>,
        /// The guard on the right.
        right: Option<Boxed<Guard>>,
    },
}

/// What a rule derives. What a choice has is boxed, so that a rule with an atom is small.
#[derive(Debug, Drop)]
pub enum HeadForm {
    /// An atom.
    One(Atom),
    /// A choice: any of the atoms of its elements, as many as its guards admit.
    Choice {
        /// The guard on the left.
        left: Option<Boxed<Guard>>,
        /// The elements between the braces.
        elements: Boxed<Items<ChoiceElement>>,
        /// The guard on the right.
        right: Option<Boxed<Guard>>,
    },
    /// Nothing: the rule is a constraint, whose body may not hold.
    Nothing,
}

/// A rule.
#[derive(Debug, Drop)]
pub struct Rule {
    /// The number of its file, from 1. 0 where the text is of no file.
    pub file: u32,
    /// The byte of the text, from 0, at which its first token begins.
    pub at: u32,
    /// What it derives.
    pub head: HeadForm,
    /// The conjunction behind `:-`; the empty one is true.
    pub body: Items<BodyItem>,
}
