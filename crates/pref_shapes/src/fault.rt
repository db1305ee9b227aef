// Why preference statements are refused for their shapes.
use ap_syntax::Text;
use std::alloc::AllocError;
use std::error::Error;
use thiserror::Error;

/// Why preference statements are refused.
#[derive(Debug, Drop, Error)]
pub enum ShapeFault {
    /// The first statement whose elements do not have the shape of its type, with the first element that does not.
    #[error("an element does not have the shape of its type")]
    BadElement {
        /// The name of the statement.
        statement: Text,
        /// The place of the element in the statement, from 1. 0 where the type asks for an element and there is none, 2 for a
        /// second element where the type asks for one alone.
        place: usize,
    },
    /// There is no memory left.
    #[error("out of memory")]
    Memory,
}

impl From<AllocError> for ShapeFault {
    ghost use Rattle.std.specs.Prelude.{◌≡◌};
    ghost use Rattle.pref_shapes.specs.declared.fault.ShapeFault.TheVariants.{Memory};

    ghost from_gives = { λ _ e. e ≡ Memory };

    fn from(_error: AllocError) -> ShapeFault {
        ShapeFault::Memory
    }
}
