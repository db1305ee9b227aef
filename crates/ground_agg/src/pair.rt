//! A tuple with a condition.
use ap_term::Args;
use sqlite_items::Items;

/// A tuple that was found, with one condition under which it counts.
#[derive(Debug, Drop)]
pub struct Pair {
    /// The members of the tuple, from first to last. There may be none, or more than a written tuple may have.
    pub tuple: Args,
    /// Literals: an atom's number, and its negative for `not`. They are in order, by atom and the positive one first, and
    /// each stands once.
    pub condition: Items<i64>,
}
