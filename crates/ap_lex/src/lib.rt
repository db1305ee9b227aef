//! The tokens of texts.
#![tactic(auto)]

mod bytes;
mod fault;
mod lexer;
mod pieces;
mod token;

pub use fault::LexFault;
pub use lexer::{MAX_BYTES, one_reading, tokens, tokens_before_fault};
pub use token::{Kind, Token};

#[cfg(test)]
mod tests;
