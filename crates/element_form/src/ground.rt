// Ground elements as they are kept.
use ap_syntax::Text;
use ap_term::TermId;
use ground_form::AtomId;
use sqlite_items::Items;

/// The number of a preference statement: its place among the statements of a program in the order of the texts, from 0.
#[derive(Clone, Copy, Debug, PartialEq, Eq, PartialOrd, Ord, Hash)]
pub struct StmtId(pub u64);

/// The number of a formula in a `Spec`: its place in the table of formulas, from 0. Formulas with equal terms have one number.
#[derive(Clone, Copy, Debug, PartialEq, Eq, PartialOrd, Ord, Hash)]
pub struct FormulaId(pub u64);

/// A ground formula. Its parts are formulas of the same table, with lower numbers. A chain of `&` or `|` is nested to the
/// left.
#[derive(Clone, Copy, Debug, PartialEq, Eq)]
pub enum GroundFormula {
    /// An atom by its term, and by its number in the base program. None where it is not possible there.
    Atom(TermId, Option<AtomId>),
    /// `not`
    Neg(FormulaId),
    /// `&`
    And(FormulaId, FormulaId),
    /// `|`
    Or(FormulaId, FormulaId),
}

/// A formula with the weights before it.
#[derive(Debug, Drop)]
pub struct GroundRank {
    /// The formula.
    pub formula: FormulaId,
    /// The tuple of weights. Empty where there are none.
    pub weights: Items<TermId>,
}

/// A named statement with the weights before it.
#[derive(Debug, Drop)]
pub struct GroundName {
    /// The statement that `**` names.
    pub statement: StmtId,
    /// The tuple of weights. Empty where there are none.
    pub weights: Items<TermId>,
}

/// A ground element: an instance of an element of a statement.
#[derive(Debug, Drop)]
pub struct GroundElement {
    /// The place of the element in its statement, from 1.
    pub place: u32,
    /// The values of its named variables, in the order in which these first occur.
    pub values: Items<TermId>,
    /// The ranks, the best one first. Empty where a statement is named.
    pub ranks: Items<GroundRank>,
    /// What stands after `||`.
    pub given: Option<GroundRank>,
    /// The statement that is named, where the one rank is a name.
    pub name: Option<GroundName>,
}

/// A preference statement with its ground elements.
#[derive(Debug, Drop)]
pub struct GroundStatement {
    /// Its name.
    pub name: Text,
    /// Its type, as it is written: `subset` or `less(weight)`.
    pub kind: Text,
    /// Its ground elements, in ascending order of places and then of values.
    pub elements: Items<GroundElement>,
}
