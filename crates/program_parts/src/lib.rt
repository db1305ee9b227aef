//! The parts of a program: the rules of the base, the rules of each type, the preference statements, and all else.
#![tactic(auto)]

mod gather;
mod parts;

pub use gather::take_apart;
pub use parts::{Parts, TypeProgram};
