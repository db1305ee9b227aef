//! The words of the programs: what they ask for.
#![tactic(auto)]

mod fault;
mod judging;
mod reading;
#[cfg(test)]
mod tests;
mod values;
mod words;

pub use fault::WordsFault;
pub use judging::{read_led_words, read_words};
pub use words::{Audit, Certificate, Constant, ConstantValue, Input, LedWords, Solve, Words};
