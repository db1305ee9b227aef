//! The clause store of a search: clauses under keys, the trail, and propagation.
#![tactic(auto)]

mod choices;
mod inserts;
mod lits;
mod plain;
mod reasons;
mod refutes;
mod stores;
#[cfg(test)]
mod tests;
mod visits;
mod watches;

pub use asp_trail::{Entry, Why};
pub use stores::Store;
