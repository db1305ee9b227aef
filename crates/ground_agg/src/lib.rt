//! The tuples of an aggregate or a choice, with the conditions under which they count.
#![tactic(auto)]

mod conditions;
mod fault;
mod gathering;
mod grouping;
mod merging;
mod order;
mod pair;
mod row;
#[cfg(test)]
mod tests;

pub use conditions::are_in_order;
pub use fault::AggFault;
pub use gathering::gather;
pub use pair::Pair;
pub use row::TupleRow;
