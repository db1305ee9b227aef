//! Patterns of values.
ghost use Rattle.std.specs.Prelude.{◌≡◌, IfOk};

use ap_term::{TermId, Text};
use sqlite_items::Items;
use std::alloc::{AllocError, Global};

/// A value with places in it, which are numbered from 0. Each variable, each `_` and each result of an operation has a place of its
/// own, so a pattern has one value once its places have theirs.
#[derive(Debug, Drop)]
pub enum Pattern {
    /// The value of this place.
    Place(u32),
    /// This value of the table.
    Known(TermId),
    /// A compound term by its name and arguments, or a tuple where the name is empty.
    Compound(Text, Items<Pattern>),
}

impl Pattern {
    /// An equal pattern.
    pub fn copy(&self, alloc: Global) -> Result<Pattern, AllocError>
        ensures { IfOk result (λ pattern. pattern ≡ self.now) }
    {
        match self {
            Pattern::Place(place) => Ok(Pattern::Place(*place)),
            Pattern::Known(id) => Ok(Pattern::Known(*id)),
            Pattern::Compound(name, parts) => {
                let name = name.copy(alloc)?;
                let mut copies = Items::new(alloc);
                for part in parts.as_slice() {
                    copies.push(part.copy(alloc)?)?;
                }
                Ok(Pattern::Compound(name, copies))
            }
        }
    }
}
