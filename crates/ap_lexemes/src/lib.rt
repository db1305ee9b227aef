//! Tokens as the grammar sees them: their terminals, the limits of a text and the names of unsupported constructs.
#![tactic(auto)]

mod construct;
mod context;
mod fault;
mod laws;
mod levels;
mod lexeme;
mod lexemes;
mod limit;
mod limits;
mod listing;
mod naming;
mod role;
mod stops;
mod terminals;
mod tokenized;
mod tokenizing;

pub use construct::Construct;
pub use fault::ParseFault;
pub use laws::{limit_of_a_front, one_list, one_outcome};
pub use lexeme::Lexeme;
pub use lexemes::Lexemes;
pub use limit::{Limit, LimitAt};
pub use limits::first_limit;
pub use naming::construct_of;
pub use stops::{fault_behind, last_fault, outcome_of_reading, up_to};
pub use terminals::terminal;
pub use tokenized::Tokenized;
pub use tokenizing::tokenize;

#[cfg(test)]
mod tests;
