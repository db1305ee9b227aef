//! Ground programs: their atoms, rules, bodies and groups by number, and what their answer sets are.
#![tactic(auto)]

mod atoms;
mod bodies;
mod groups;
mod numbers;
mod program;
mod range;
mod rules;
#[cfg(test)]
mod tests;

pub use atoms::{AtomId, AtomSet, SetId, is_ascending};
pub use bodies::{Body, BodyId, GuardUse};
pub use groups::{Group, GroupGuard, GroupRow, GuardRel};
pub use numbers::numbered;
pub use program::GroundProgram;
pub use range::is_in_range;
pub use rules::{GroundRule, Head};
