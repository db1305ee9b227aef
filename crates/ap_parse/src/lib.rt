//! Reads texts: from tokens to the trees of statements, or the place of the fault.
#![tactic(auto)]

mod aggregates;
mod answers;
mod bodies;
mod changes;
mod choices;
mod guards;
mod heads;
mod openings;
mod rules;
mod sections;
mod statements;
mod texts;

pub use answers::{answer, is_of_type, program};
pub use ap_lexemes::ParseFault;
pub use changes::changing;
pub use openings::{Opening, read_kind, read_opening};
pub use statements::{begins_statement, is_statement_start, read_statement};
pub use texts::{one_front, one_parse, parse, statement};

#[cfg(test)]
mod tests;
