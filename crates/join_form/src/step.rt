//! Steps of a join.
use crate::pattern::Pattern;
use ap_term::ArithOp;
use sqlite_items::Items;

/// A relation of two values in their order.
#[derive(Clone, Copy, Debug, PartialEq, Eq)]
pub enum Comparison {
    /// Both are one value.
    Eq,
    /// They are two values.
    Ne,
    /// The left one is less.
    Lt,
    /// The left one is not greater.
    Le,
    /// The left one is greater.
    Gt,
    /// The left one is not less.
    Ge,
}

/// A condition on the values of places. Steps are taken from first to last, and some of them give places their values.
#[derive(Debug, Drop)]
pub enum Step {
    /// Some row of the relation has these values. It binds all places of the patterns.
    Row {
        /// The number of the relation.
        relation: u32,
        /// A pattern for each member of the row.
        patterns: Items<Pattern>,
        /// The members by which rows are found, by their positions from 0, ascending. What these members have to be must be bound
        /// before. An index serves the first four of them; what is not among them is tested row by row.
        key: Items<u32>,
    },
    /// No row of the relation has these values. All places must be bound before.
    Missing {
        /// The number of the relation.
        relation: u32,
        /// A pattern for each member of the row.
        patterns: Items<Pattern>,
    },
    /// The place has the result of an operation on two integers, which exists. The places of both sides must be bound before.
    Compute {
        /// The operation.
        op: ArithOp,
        /// The left operand.
        left: Pattern,
        /// The right operand.
        right: Pattern,
        /// The place of the result.
        place: u32,
    },
    /// The place has one of the integers from the one end to the other, ends included. The places of both ends must be bound before.
    Between {
        /// The least integer.
        low: Pattern,
        /// The greatest integer.
        high: Pattern,
        /// The place of the integer between them.
        place: u32,
    },
    /// Both sides have one value. The places on the right must be bound before; those on the left are bound by it.
    Same {
        /// The side that is matched with the value.
        left: Pattern,
        /// The side that has the value.
        right: Pattern,
    },
    /// Both sides have values in this order. All places must be bound before.
    Compare {
        /// The left side.
        left: Pattern,
        /// How its value stands to the other.
        order: Comparison,
        /// The right side.
        right: Pattern,
    },
}
