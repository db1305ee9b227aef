// Why the names of a program are refused.
use crate::cause::Cause;
use ap_syntax::Text;
use sqlite_items::Items;
use std::alloc::AllocError;
use std::error::Error;
use thiserror::Error;

/// Why the names of a program are refused.
#[derive(Debug, Drop, Error)]
pub enum TypeFault {
    /// The statement at this place is the first in the texts with a wrong name.
    #[error("file {file}, byte {at}: {cause}")]
    Misnamed {
        /// The number of its file, from 1. 0 where the text is of no file.
        file: u32,
        /// The byte of the text, from 0, at which the first token of the statement begins.
        at: u32,
        /// What is wrong.
        cause: Cause,
    },
    /// All names are bound, and there are preference statements that reach themselves by naming.
    #[error("preference statements name each other in a cycle")]
    NamingCycle {
        /// Their names, in the order of the texts. There is at least one.
        list: Items<Text>,
    },
    /// There is no memory left.
    #[error("out of memory")]
    Memory,
}

impl From<AllocError> for TypeFault {
    ghost use Rattle.std.specs.Prelude.{◌≡◌};
    ghost use Rattle.pref_bind.specs.declared.fault.TypeFault.TheVariants.{Memory};

    ghost from_gives = { λ _ e. e ≡ Memory };

    fn from(_error: AllocError) -> TypeFault {
        TypeFault::Memory
    }
}
