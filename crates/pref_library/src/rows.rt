// Rules as constant rows.
use ap_syntax::Rel;

/// A term.
#[derive(Clone, Copy)]
pub(crate) enum TermRow {
    /// A variable.
    Var(&'static str),
    /// `_`
    Any,
    /// A constant.
    Name(&'static str),
    /// A number.
    Number(i64),
    /// A name of one variable, as `for(F)`.
    Apply(&'static str, &'static str),
    /// The negation of a variable.
    MinusVar(&'static str),
    /// The negation of a number.
    MinusNumber(i64),
}

/// An atom.
#[derive(Clone, Copy)]
pub(crate) struct AtomRow {
    pub name: &'static str,
    pub terms: &'static [TermRow],
}

/// A literal.
#[derive(Clone, Copy)]
pub(crate) enum LiteralRow {
    /// An atom.
    Yes(AtomRow),
    /// The negation of an atom.
    No(AtomRow),
    /// A comparison.
    Compare(TermRow, Rel, TermRow),
}

/// An element of a sum: `terms : condition`.
#[derive(Clone, Copy)]
pub(crate) struct ElementRow {
    pub terms: &'static [TermRow],
    pub condition: &'static [LiteralRow],
}

/// A part of a body.
#[derive(Clone, Copy)]
pub(crate) enum ItemRow {
    /// A literal.
    Plain(LiteralRow),
    /// `atom : condition`
    All(AtomRow, &'static [LiteralRow]),
    /// `number rel #sum{elements}`
    Sum(i64, Rel, &'static [ElementRow]),
}

/// A rule.
#[derive(Clone, Copy)]
pub(crate) struct RuleRow {
    pub head: AtomRow,
    pub body: &'static [ItemRow],
}

/// Some rules of a program, one after the other.
#[derive(Clone, Copy)]
pub(crate) struct Passage {
    pub rules: &'static [RuleRow],
}
