//! The core of a search for optimal answer sets: which sets were met, passed and printed by several chains of
//! improvement.
#![tactic(auto)]

mod chains;
mod cores;
mod events;
mod laws;
mod met;
#[cfg(test)]
mod tests;

pub use cores::Core;
pub use events::{Event, Output, Passed};
pub use laws::{Family, events_print_the_optima};
