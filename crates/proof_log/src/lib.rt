//! Logs of a search: their steps, and which of them are valid.
//!
//! Each clause that a step adds is true in every model of the theory, whatever was erased before (reverse unit propagation:
//! Goldberg and Novikov, "Verification of Proofs of Unsatisfiability for CNF Formulas", 2003; hints: Cruz-Filipe and others,
//! "Efficient Certified RAT Verification", 2017).
#![tactic(auto)]

mod added;
mod causes;
mod clauses;
mod conditions;
mod hints;
mod laws;
mod logs;
mod loops;
mod states;
mod steps;
mod sums;
#[cfg(test)]
mod tests;
mod validity;

pub use causes::Cause;
pub use laws::added_are_true;
pub use logs::Log;
pub use states::{CheckState, step_cause, step_valid};
pub use steps::Step;
pub use validity::{added_stay_true, logs_are_true, logs_stay_valid, steps_keep_logs};
