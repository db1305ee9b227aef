//! Rules with variables as patterns over places and steps of a join.
#![tactic(auto)]

mod draft;
mod terms;
#[cfg(test)]
mod tests;
mod variables;

pub use draft::{Draft, Mark};
pub use terms::{compile_term, compile_terms};
