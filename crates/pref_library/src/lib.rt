//! The programs of the built-in preference types, as rows written down.
#![tactic(auto)]

mod build;
mod rows;
mod table;
#[cfg(test)]
mod tests;

pub use build::{program_of, rules_of};
