// Lists of new variables.
ghost use Rattle.std.specs.Prelude.{◌≡◌, [], ◌∷◌, IfOk, OnOk};
ghost use Rattle.theory_build.specs.Drafts.{IsLonger, next_of};

use crate::entries::Entry;
use crate::numbers::sum;
use std::alloc::{AllocError, Global};

// Variables that are to be added to a theory one after the other, the first of which has the number `from`.
#[derive(Drop)]
pub struct Draft {
    pub from: u64,
    pub entries: Vec<Entry>,
}

impl Draft {
    // The draft without variables.
    pub(crate) fn new(alloc: Global, from: u64) -> Draft
        ensures from { result.from ≡ from }
        ensures empty { result.entries.items ≡ [] }
    {
        Draft {
            from,
            entries: Vec::new(alloc),
        }
    }

    // The number of the next variable.
    pub(crate) fn next(&self) -> Result<u64, AllocError>
        ensures { IfOk result (λ v. v ≡ next_of self.now) }
    {
        sum(self.from, self.entries.len() as u64)
    }

    // Adds a variable.
    pub(crate) fn add(&mut self, entry: Entry) -> Result<(), AllocError>
        ensures { OnOk result (IsLonger self.old self.new (entry ∷ [])) }
    {
        self.entries.push(entry)?;
        Ok(())
    }
}
