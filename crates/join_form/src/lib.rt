//! Bodies of rules in three-address code: patterns over places, and steps that give the places their values.
#![tactic(auto)]

mod laws;
mod pattern;
mod step;

pub use laws::{steps_hang_on_their_places, steps_keep_their_meaning};
pub use pattern::Pattern;
pub use step::{Comparison, Step};
