//! The static conditions of a program, in the order in which their faults are told.
#![tactic(auto)]

mod checked;
mod checks;
mod fault;
mod judging;

pub use checked::Checked;
pub use checks::check_program;
pub use fault::StaticFault;
