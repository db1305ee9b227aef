//! The optimal answer sets of a small program, by trying all sets of its atoms.
#![tactic(auto)]

mod answers;
mod atoms;
mod optima;
mod preferred;
mod subsets;
#[cfg(test)]
mod tests;

pub use atoms::MOST_ATOMS;
pub use optima::{Optima, TrialFault, list_optima};
