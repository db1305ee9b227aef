//! The grammar of whole texts: its terminals, its rules with their trees, and the form in which one token of foresight
//! reads it.
#![tactic(auto)]

mod terminals;

pub use terminals::Terminal;
