//! What rules and elements of preference statements say of variables, in the order of the text.
#![tactic(auto)]

mod aggregates;
mod elements;
mod pieces;
mod variables;

pub use elements::piece_of;
pub use pieces::{Mention, Piece, Side, Signature, pieces_of};
pub use variables::Occurrence;
