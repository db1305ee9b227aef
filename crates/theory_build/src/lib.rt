//! The theory of a ground program (Clark 1978; Lin and Zhao 2004): its variables and clauses, and programs that are appended
//! to it.
#![tactic(auto)]

mod appending;
mod atoms;
mod base;
mod bodies;
mod clauses;
mod conjunctions;
mod drafts;
mod entries;
mod exclusion;
mod frames;
mod groups;
mod guards;
mod heads;
mod marks;
mod numbers;
mod plans;
#[cfg(test)]
mod tests;
mod theories;

pub use appending::{Base, append};
pub use base::complete;
pub use exclusion::exclude;
