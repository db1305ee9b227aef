//! What the models of a theory are, which clauses are true in all of them, and what stays true where a theory grows.
#![tactic(auto)]

mod growth;
mod laws;

pub use growth::{
    bodies_stay_defined, hints_hold_in_longer_theories, loop_clauses_stay, models_of_beginnings,
};
pub use laws::{follows_is_true, loop_clause_is_true};
