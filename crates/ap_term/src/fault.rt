//! Why a term is not interned.
use thiserror::Error;

/// Why a term is not interned.
#[derive(Clone, Copy, Debug, PartialEq, Eq, Error)]
pub enum TermFault {
    /// The term is deeper than 128 levels.
    #[error("a term is deeper than 128 levels")]
    TooDeep,
    /// There is no memory left.
    #[error("out of memory")]
    Memory,
}
