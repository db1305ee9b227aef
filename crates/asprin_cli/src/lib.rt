//! A run of `asprin`, from words and files to printed lines.
#![tactic(auto)]

mod end;
mod ended;
mod found;
mod input;
mod listing;
mod print;
mod program;
mod quit;
mod solve;
mod stop;
#[cfg(test)]
mod tests;
mod words;

pub use end::{End, Refusal};
pub use ended::Ended;
pub use found::Found;
pub use program::run;
pub use quit::Quit;
pub use solve::solve_run;
pub use stop::Stop;
