//! Answer sets of programs without variables.
#![tactic(auto)]

mod acyclic;
mod answer;
mod looks;
mod membership;
mod reduction;
mod small;
mod tables;
#[cfg(test)]
mod tests;
mod truth;

pub use acyclic::{acyclic_model, is_acyclic};
pub use answer::is_answer_set;
pub use small::small_answer_set;
pub use truth::body_true;
