//! Safety of rules, and the components of predicates.
#![tactic(auto)]

mod checking;
mod conditions;
mod domains;
mod fault;
mod faults;
#[cfg(test)]
mod tests;

pub use checking::{check, domain};
pub use fault::{DomainFault, SafetyFault};
pub use pred_graph::{Pred, Safe};
