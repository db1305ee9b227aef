//! The living engine of the search: a store of clauses with the theory and the log whose kept clauses it has, and what a query does
//! to all of them.
//!
//! Going down by decisions and propagation, learning from conflicts, adding clauses of loops and sums, and forgetting at the end of
//! a period.
#![tactic(auto)]

mod additions;
mod descent;
mod engine;
mod forgetting;
mod intake;
mod keeping;
mod learning;
mod levels;
mod loops;
mod periods;
mod pool;
mod rounds;
mod searching;
mod sums;

pub use engine::{Engine, Parts};
pub use intake::take_in;
pub use periods::{Period, Query};
pub use rounds::Ending;
pub use searching::search;
