//! Syntax trees of programs.
#![tactic(auto)]

mod equality;
mod lists;
mod preferences;
mod printed;
mod printed_lists;
mod printed_preferences;
mod printed_rules;
mod printed_terms;
mod programs;
mod rules;
pub mod small;
mod terms;
mod text;

pub use lists::fitted;
pub use preferences::{Element, Formula, Preference, Ranked, Target};
pub use printed::print_program;
pub use programs::{PartKind, Program, Statement, Statements};
pub use rules::{AggElement, BodyItem, ChoiceElement, Function, Guard, HeadForm, Rule};
pub use terms::{Atom, Literal, ProductOp, Rel, SumOp, Term};
pub use text::Text;

#[cfg(test)]
mod tests;
