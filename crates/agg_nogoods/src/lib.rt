//! The clauses that sum rows imply.
#![tactic(auto)]

mod ends;
mod kept;
mod known;
mod propagation;
mod rule;
#[cfg(test)]
mod tests;

pub use kept::RowEnds;
pub use propagation::{propagate, propagate_by};
pub use rule::implied;
