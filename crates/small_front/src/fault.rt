// Why files are refused.
use ap_lexemes::ParseFault;
use std::alloc::AllocError;
use std::error::Error;
use thiserror::Error;

/// Why files are refused. Files are numbered from 1, in the order in which they are given.
#[derive(Clone, Copy, Debug, PartialEq, Eq, Error)]
pub enum FrontFault {
    /// The file is the first that is not the text of a program.
    #[error("file {file}: {fault}")]
    Reading {
        /// The number of the file.
        file: u32,
        /// Why it is not; never want of memory.
        fault: ParseFault,
    },
    /// Every file is the text of a program, and this statement is the first that is not of the small language.
    #[error("file {file}, byte {at}: not in the small language")]
    Later {
        /// The number of the file.
        file: u32,
        /// The byte, from 0, at which the statement begins.
        at: u32,
    },
    /// All statements are of the small language, and this `#const` is the first of a name that has a `#const` before
    /// it.
    #[error("file {file}, byte {at}: a constant is declared twice")]
    ConstTwice {
        /// The number of the file.
        file: u32,
        /// The byte, from 0, at which the statement begins.
        at: u32,
    },
    /// Memory ran out.
    #[error("out of memory")]
    Memory,
}

impl From<AllocError> for FrontFault {
    ghost use Rattle.std.specs.Prelude.{◌≡◌};
    ghost use Rattle.small_front.specs.declared.fault.FrontFault.TheVariants.{Memory};

    ghost from_gives = { λ _ e. e ≡ Memory };

    fn from(_error: AllocError) -> FrontFault {
        FrontFault::Memory
    }
}
