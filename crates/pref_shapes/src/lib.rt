//! The shapes that preference statements have by their types.
#![tactic(auto)]

mod fault;
mod forms;
mod intervals;
mod shaping;

pub use fault::ShapeFault;
pub use shaping::shapes;
