//! Relations of ground terms, and their rows by the terms at some places.
#![tactic(auto)]

mod index;
mod relation;
mod selection;
#[cfg(test)]
mod tests;

pub use index::Index;
pub use relation::Relation;
pub use selection::select;
