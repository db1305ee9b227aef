//! Which literal a search decides next, and when it starts again from level 0.
//!
//! All of this is a hint: contracts say only what a search must not get wrong, so each type is seen as having one value.
#![tactic(auto)]

mod branching;
mod heap;
mod restarts;
#[cfg(test)]
mod tests;

pub use branching::Branching;
pub use restarts::Restarts;
