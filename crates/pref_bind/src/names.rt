// Sets of names.
ghost use Rattle.std.specs.Prelude.{◌≡◌, ◌||◌, ℕ, List, [], OnOk};
ghost use Rattle.std.specs.Str.{bytes_eq};
ghost use Rattle.pref_bind.specs.Named.{is_named};

use ap_syntax::Text;
use std::alloc::{AllocError, Global};
use std::collections::BTreeSet;
use std::marker::Model;

/// A set of names, which contracts see as the list of its members in order.
#[derive(Drop)]
pub struct Names {
    names: BTreeSet<Text>,
}

impl Model for Names {
    ghost use Rattle.std.specs.Prelude.{List, ℕ};
    ghost use Rattle.std.specs.Coded.{coded_list, coded_ℕ};

    ghost Value = { List (List ℕ) };

    ghost coded = { coded_list (coded_list coded_ℕ) };

    ghost view = { λ s. s.names.keys };
}

impl Names {
    /// No names.
    pub fn new(alloc: Global) -> Names
        ensures { result ≡ [] }
    {
        Names {
            names: BTreeSet::new(alloc),
        }
    }

    /// Whether it has the name.
    pub fn contains(&self, name: &Text) -> bool
        ensures { result ≡ is_named self.now name.now }
    {
        self.names.contains(name)
    }

    /// Adds a name, unless it is there. It fails for want of memory alone.
    pub fn insert(&mut self, alloc: Global, name: &Text) -> Result<(), AllocError>
        ensures { OnOk result ((other : List ℕ)
            → is_named self.new other ≡ (bytes_eq name.now other || is_named self.old other)) }
    {
        self.names.insert(name.copy(alloc)?)?;
        Ok(())
    }
}
