//! Unfounded sets, external supports and loop clauses.
#![tactic(auto)]

mod externals;
mod founding;
mod laws;
mod marking;
mod stamps;
mod supports;
#[cfg(test)]
mod tests;
mod unfounded_sets;
mod validity;
mod waits;

pub use externals::external;
pub use laws::{loop_clause_is_false_or_unit, tight_programs_have_no_unfounded_set};
pub use unfounded_sets::{Tables, unfounded};
pub use validity::loop_valid;
