//! What a search may conclude: that a total assignment with which nothing is wrong is a model, that there are few clauses
//! over few variables, and how the number of assignments that make all clauses true falls.
//!
//! The functions of this crate do nothing. Their contracts are laws.
#![tactic(auto)]

mod closed;
mod counts;
mod few;

pub use closed::closed_assignments_are_models;
pub use counts::models_fall;
pub use few::plain_clauses_are_few;
