//! Variables, literals, clauses, assignments and the theory that a search works on.
//!
//! Variables and clauses are numbered from 1. In the lists of a theory number k stands at place k - 1. In the tables
//! by variable (`Assignment`, `Marks`) a variable's place is its number, and place 0 is no variable's.
#![tactic(auto)]

mod assignments;
mod clauses;
mod literals;
mod looks;
mod rows;
mod tables;
#[cfg(test)]
mod tests;
mod theories;

pub use assignments::{Assignment, Truth};
pub use clauses::{Clause, is_ascending};
pub use literals::{ClauseId, Lit, Var};
pub use looks::{Sight, look};
pub use rows::{BodyRow, SumRow, VarKind};
pub use tables::Marks;
pub use theories::{Mark, Theory};
