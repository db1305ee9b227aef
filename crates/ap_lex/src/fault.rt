// Why a text has no tokens.
use std::error::Error;
use thiserror::Error;

/// Why a text has no tokens.
#[derive(Clone, Copy, Debug, PartialEq, Eq, Error)]
pub enum LexFault {
    /// No token begins at a place.
    #[error("no token begins at byte {at}")]
    At {
        /// The first such place: a byte of the text, from 0.
        at: u32,
    },
    /// Memory ran out.
    #[error("out of memory")]
    Memory,
}
