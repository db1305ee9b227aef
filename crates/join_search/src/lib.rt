//! Patterns of a join: their matches with values, and their values under a binding.
#![tactic(auto)]

mod comparison;
mod evaluation;
mod matching;
mod number;
#[cfg(test)]
mod tests;

pub use comparison::compare;
pub use evaluation::evaluate;
pub use matching::{bind, match_pattern, match_patterns};
pub use number::{number_at, number_of};
