//! Reads preference statements: formulas, ranks, elements, and the statements that hold them.
#![tactic(auto)]

mod elements;
mod files;
mod formulas;
mod mixed;
mod operators;
mod ranked;
mod sections;
mod statements;

pub use files::{one_reading, parse_bytes};

#[cfg(test)]
mod tests;
