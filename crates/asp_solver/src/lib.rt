//! The solver: answer sets under assumptions, over one theory that grows, with a valid log.
#![tactic(auto)]

mod answers;
mod found;
mod kept;
mod laws;
mod queries;
mod runs;
mod solver;

pub use answers::{Answer, Turn};
pub use kept::{Kept, Rest};
pub use laws::base_theories_can_be_searched;
pub use solver::Solver;
