// Sets of names, and numbers for names.
ghost use Rattle.std.specs.Prelude.{◌≡◌, ◌||◌, ℕ, List, false, Some, None, slice_get, OnOk, IfOk};
ghost use Rattle.std.specs.Str.{bytes_eq};
ghost use Rattle.ap_bindings.specs.Searches.{names_in, number_in, IsTable, Grows};

use ap_syntax::Text;
use sqlite_items::Items;
use std::alloc::{AllocError, Global};
use std::collections::{HashMap, HashSet};

/// A set of names.
#[derive(Drop)]
pub(crate) struct NameSet {
    pub(crate) set: HashSet<String>,
}

impl NameSet {
    /// The empty set.
    pub(crate) fn new(alloc: Global) -> NameSet
        ensures { (name : List ℕ) → names_in result name ≡ false }
    {
        NameSet {
            set: HashSet::new(alloc),
        }
    }

    /// Whether the set has the name.
    pub(crate) fn contains(&self, name: &Text) -> bool
        ensures { result ≡ names_in self.now name.now }
    {
        self.set.contains(name.as_str())
    }

    /// Adds the name.
    pub(crate) fn insert(&mut self, alloc: Global, name: &Text) -> Result<(), AllocError>
        ensures { OnOk result ((other : List ℕ) → names_in self.new other ≡ (bytes_eq other name.now || names_in self.old other)) }
    {
        self.set.insert(String::from_str(alloc, name.as_str())?)?;
        Ok(())
    }
}

/// Numbers for names, from 0 on in the order in which the names came.
#[derive(Drop)]
pub(crate) struct NameTable {
    pub(crate) numbers: HashMap<String, usize>,
    pub(crate) names: Items<Text>,
}

impl NameTable {
    /// No name has a number.
    pub(crate) fn new(alloc: Global) -> NameTable
        ensures { IsTable result }
    {
        NameTable {
            numbers: HashMap::new(alloc),
            names: Items::new(alloc),
        }
    }

    /// The number of a name.
    pub(crate) fn get(&self, name: &Text) -> Option<usize>
        ensures { result ≡ number_in self.now name.now }
    {
        self.numbers.get(name.as_str()).copied()
    }

    /// Gives the next number to a name that has none.
    fn add(&mut self, alloc: Global, name: &Text) -> Result<usize, AllocError>
        requires table { IsTable self.old }
        requires absent { number_in self.old name.now ≡ None }
        ensures grows { OnOk result (Grows self.old self.new) }
        ensures number { IfOk result (λ i. slice_get self.new.names i ≡ Some name.now) }
    {
        let number = self.names.len();
        self.numbers
            .insert(String::from_str(alloc, name.as_str())?, number)?;
        self.names.push(name.copy(alloc)?)?;
        Ok(number)
    }

    /// The number of a name, which gets one if it has none.
    pub(crate) fn number(&mut self, alloc: Global, name: &Text) -> Result<usize, AllocError>
        requires table { IsTable self.old }
        ensures grows { OnOk result (Grows self.old self.new) }
        ensures number { IfOk result (λ i. slice_get self.new.names i ≡ Some name.now) }
    {
        match self.get(name) {
            Some(number) => Ok(number),
            None => self.add(alloc, name),
        }
    }
}
