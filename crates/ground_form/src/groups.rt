//! The groups of a ground program: what an aggregate, or a choice with a guard, sums up and compares.
use sqlite_items::Items;

/// How the value of a group stands to the number of a guard.
#[derive(Clone, Copy, Debug, PartialEq, Eq)]
pub enum GuardRel {
    Eq,
    Ne,
    Lt,
    Le,
    Gt,
    Ge,
}

/// A guard of a group.
#[derive(Clone, Copy, Debug, PartialEq, Eq)]
pub enum GroupGuard {
    /// The group's value stands in this relation to the number, the value on the left.
    Compare(GuardRel, i64),
    /// A guard that is no integer: in the order of values it compares alike with every integer, so it is true in every
    /// set or in none.
    Fixed(bool),
}

/// A distinct tuple of an aggregate. It counts where one of its conditions is true, each a conjunction of literals over
/// atoms. It then adds its weight: 1 in `#count` and in choices, the first member in `#sum`, and nothing where that is no
/// integer.
#[derive(Debug, Drop)]
pub struct GroupRow {
    pub weight: Option<i64>,
    pub conditions: Items<Items<i64>>,
}

/// The tuples of an aggregate, or the atoms of a choice, and their guards.
#[derive(Debug, Drop)]
pub struct Group {
    pub rows: Items<GroupRow>,
    pub left: Option<GroupGuard>,
    pub right: Option<GroupGuard>,
}
