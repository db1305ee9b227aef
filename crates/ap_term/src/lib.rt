//! Ground terms by number: one id for each value, their order, their arithmetic and their text.
#![tactic(auto)]

mod args;
mod arithmetic;
mod fault;
mod order;
mod shape;
mod terms;
#[cfg(test)]
mod tests;
mod text;
mod written;

pub use args::Args;
pub use arithmetic::{ArithOp, arith};
pub use fault::TermFault;
pub use order::order_is_total;
pub use shape::{Shape, TermId};
pub use terms::Terms;
pub use text::Text;
