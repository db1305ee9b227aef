// The sets that were met, each once, in order.
ghost use Rattle.std.specs.Prelude.{◌≡◌, ◌↔◌, [], ◌∷◌, ◌++◌, length, None, Some, IsNone, IfOk, OnOk, OnErr, option_copied};
ghost use Rattle.ground_form.specs.Programs.{numbered};
ghost use Rattle.ground_form.specs.declared.atoms.SetId.{SetId as Number};
ghost use Rattle.opt_core.specs.Numbers.{next_number, number_of, IsNewSet};

use ground_form::{AtomSet, SetId};
use indexmap::IndexSet;
use std::alloc::{AllocError, Global};
use std::marker::Model;

/// The sets that were met, none of them twice. The number of a set is its place in the order in which they were met,
/// counted from 1.
#[derive(Drop)]
pub struct Met {
    sets: IndexSet<AtomSet>,
}

impl Model for Met {
    ghost use Rattle.std.specs.Prelude.{List};
    ghost use Rattle.std.specs.Coded.{coded_list};
    ghost use Rattle.ground_form.specs.declared.atoms.AtomId.{AtomId as Id};
    ghost use Rattle.ground_form.specs.contracts.atoms.AtomId.{the_row};
    ghost use Rattle.opt_core.specs.Numbers.{AreMet};

    ghost Value = { List (List Id) };

    ghost coded = { coded_list (coded_list the_row.coded) };

    ghost view = { λ m. m.sets.keys };

    ghost invariant = { λ m. AreMet m.sets.keys };
}

impl Met {
    pub fn new(alloc: Global) -> Met
        ensures { result ≡ [] }
    {
        Met {
            sets: IndexSet::new(alloc),
        }
    }

    /// The set of a number.
    pub fn set(&self, id: SetId) -> Option<&AtomSet>
        ensures { option_copied result ≡ numbered self.now id.0 }
    {
        let place = id.0.checked_sub(1)?;
        self.sets.get_index(place as usize)
    }

    /// The number of a set.
    pub fn id(&self, set: &AtomSet) -> Option<SetId>
        ensures value { result ≡ number_of self.now set.now }
        ensures exact { (i : Number) → (result ≡ Some i) ↔ (numbered self.now i.0 ≡ Some set.now) }
        ensures none { IsNone result ↔ IsNewSet self.now set.now }
    {
        let place = self.sets.get_index_of(set)?;
        Some(SetId(place as u64 + 1))
    }

    /// The number that the next set takes.
    pub fn next(&self) -> SetId
        ensures { result ≡ next_number self.now }
    {
        SetId(self.sets.len() as u64 + 1)
    }

    /// Adds a set that is not there, and answers its number.
    pub fn add(&mut self, set: &AtomSet) -> Result<SetId, AllocError>
        requires { IsNewSet self.old set.now }
        ensures id { IfOk result (λ i. i ≡ next_number self.old) }
        ensures ok { OnOk result (self.new ≡ self.old ++ set.now ∷ []) }
        ensures kept { OnErr result (self.new ≡ self.old) }
    {
        let copy = set.copy(*self.sets.allocator())?;
        let Ok(_) = self.sets.insert(copy) else {
            return Err(AllocError);
        };
        Ok(SetId(self.sets.len() as u64))
    }
}
