//! The bodies of a ground program.
use sqlite_items::Items;

/// The number of a body in a ground program: its place in the list of bodies, counted from 1.
#[derive(Clone, Copy, Debug, PartialEq, Eq, PartialOrd, Ord, Hash)]
pub struct BodyId(pub u64);

/// A literal that a body has over a guard of a group. Groups are counted from 1. Guard 0 is the left one, 1 the right
/// one, and 2 the conjunction of both. With `yes` false the literal is the negation.
#[derive(Clone, Copy, Debug, PartialEq, Eq)]
pub struct GuardUse {
    pub group: u64,
    pub guard: u8,
    pub yes: bool,
}

/// A conjunction of literals. A literal over an atom is the atom's number, negative under `not`. `always` stands for the
/// literal that is true in every set, and `never` for the one that is false in every set.
#[derive(Debug, Drop)]
pub struct Body {
    pub lits: Items<i64>,
    pub guards: Items<GuardUse>,
    pub always: bool,
    pub never: bool,
}
