//! Predicates of rules, which of them depend on which, the components of that graph, and which predicates are definite.
#![tactic(auto)]

mod decided;
mod graph;
mod judging;
mod marks;
mod numbers;
mod pred;
mod predicates;
mod rows;
mod safe;
mod table;

pub use judging::judge;
pub use pred::{Pred, pred_of};
pub use predicates::{
    body_aggregates, body_positives, body_preds, choice_elements, choice_preds,
    condition_positives_of, condition_preds_of, head_preds,
};
pub use safe::Safe;
