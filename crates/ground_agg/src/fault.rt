//! Why tuples are not gathered.
use thiserror::Error;

/// Why tuples are not gathered.
#[derive(Clone, Copy, Debug, PartialEq, Eq, Error)]
pub enum AggFault {
    /// There are more than 1,000,000 different pairs of a tuple and a condition.
    #[error("more than 1000000 pairs of a tuple and a condition")]
    TooMany,
    /// There is no memory left.
    #[error("out of memory")]
    Memory,
}
