//! Which variables of rules and of elements of preference statements are bound.
#![tactic(auto)]

mod aggregates;
mod binding;
mod globals;
mod names;
mod scope;
mod search;
mod sources;
#[cfg(test)]
mod tests;
mod unbound;

pub use search::{Failing, earlier};
pub use sources::unsafe_in;
