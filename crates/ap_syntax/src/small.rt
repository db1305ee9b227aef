//! The trees of the small language: programs without terms, whose preference statements are of the type `subset`.
use crate::text::Text;
use sqlite_items::Items;

/// An atom, by its name.
#[derive(Debug, Drop)]
pub struct Atom {
    pub name: Text,
}

/// An atom, or an atom under default negation.
#[derive(Debug, Drop)]
pub enum Literal {
    Pos(Atom),
    Not(Atom),
}

/// One of the atoms that a choice allows.
#[derive(Debug, Drop)]
pub struct ChoiceElement {
    pub atom: Atom,
}

/// A part of a body.
#[derive(Debug, Drop)]
pub enum BodyItem {
    Plain(Literal),
}

/// What a rule derives: an atom, any of the atoms of a choice, or nothing. A rule that derives nothing is a constraint.
#[derive(Debug, Drop)]
pub enum HeadForm {
    One(Atom),
    Choice(Items<ChoiceElement>),
    Nothing,
}

/// A rule. Its body is a conjunction; the empty one is true.
#[derive(Debug, Drop)]
pub struct Rule {
    pub head: HeadForm,
    pub body: Items<BodyItem>,
}

/// What a set satisfies or not.
#[derive(Debug, Drop)]
pub enum Formula {
    Atom(Atom),
}

/// An element of a preference statement.
#[derive(Debug, Drop)]
pub struct Element {
    pub formula: Formula,
}

/// A preference statement `#preference(name,kind){elements}.`
#[derive(Debug, Drop)]
pub struct Preference {
    pub name: Text,
    pub kind: Text,
    pub elements: Items<Element>,
}

/// A statement. `Optimize` names the preference statement that decides which answer sets are optimal.
#[derive(Debug, Drop)]
pub enum Statement {
    Rule(Rule),
    Preference(Preference),
    Optimize(Text),
}

/// A program: its statements, in the order of its text.
#[derive(Debug, Drop)]
pub struct Program {
    pub statements: Items<Statement>,
}
