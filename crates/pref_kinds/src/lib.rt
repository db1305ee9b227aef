//! The built-in types of preference statements, by their names.
#![tactic(auto)]

mod built_in;
#[cfg(test)]
mod tests;

pub use built_in::{BuiltIn, kind_of};
