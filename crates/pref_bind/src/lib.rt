//! Whether the names of preference statements, types and constants are bound, and what the statements name.
#![tactic(auto)]

mod binding;
mod cause;
mod cycles;
mod fault;
mod graph;
mod names;
mod naming;
mod stack;
mod table;

pub use binding::bind;
pub use cause::Cause;
pub use fault::TypeFault;
pub use names::Names;
pub use stack::{Stack, StmtId};
