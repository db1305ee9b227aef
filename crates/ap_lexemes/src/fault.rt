// Why a text is not read.
use crate::construct::Construct;
use crate::limit::Limit;
use std::alloc::AllocError;
use std::error::Error;
use thiserror::Error;

/// Why a text is not read. A place is a byte of the text, from 0.
#[derive(Clone, Copy, Debug, PartialEq, Eq, Error)]
pub enum ParseFault {
    /// No text of the grammar goes on at this place as this one does: with this token, with bytes that are no token, or with the
    /// end of the text.
    #[error("syntax error at byte {at}")]
    Syntax {
        /// The first byte of the token, or the end of what was read.
        at: u32,
    },
    /// The same, and the token begins a construct that is not supported.
    #[error("unsupported construct at byte {at}")]
    Unsupported {
        /// The construct.
        construct: Construct,
        /// The first byte of the token.
        at: u32,
    },
    /// The text goes beyond a limit, and stands in the grammar up to that place.
    #[error("limit at byte {at}")]
    Limit {
        /// The limit.
        which: Limit,
        /// The first byte of the token at which it stands.
        at: u32,
    },
    /// Memory ran out.
    #[error("out of memory")]
    Memory,
}

impl From<AllocError> for ParseFault {
    ghost use Rattle.std.specs.Prelude.{◌≡◌};
    ghost use Rattle.ap_lexemes.specs.declared.fault.ParseFault.TheVariants.{Memory};

    ghost from_gives = { λ _ e. e ≡ Memory };

    fn from(_error: AllocError) -> ParseFault {
        ParseFault::Memory
    }
}
