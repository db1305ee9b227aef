// What is known of the preference statements of a program whose names are bound.
ghost use Rattle.std.specs.Prelude.{◌≡◌, ◌<◌, length, slice_index_or};

use sqlite_items::Items;
use std::marker::Model;

/// The number of a preference statement: its place among those of the program, from 0, in the order of the texts.
#[derive(Clone, Copy, Debug, PartialEq, Eq)]
pub struct StmtId(pub u64);

/// What the preference statements of a program name, and which of them is optimised.
#[derive(Drop)]
pub struct Stack {
    pub(crate) named: Items<Items<usize>>,
    pub(crate) optimised: Option<usize>,
}

impl Model for Stack {
    ghost use Rattle.pref_bind.specs.Bindings.{Bindings};

    ghost Value = { Bindings };

    ghost view = { λ s. record { named = s.named; optimised = s.optimised } };
}

impl Stack {
    /// The number of the statement that `#optimize` names. None exactly where there is no `#optimize`.
    pub fn optimised(&self) -> Option<usize>
        ensures { result ≡ self.now.optimised }
    {
        self.optimised
    }
}
