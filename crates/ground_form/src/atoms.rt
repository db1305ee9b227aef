//! The numbers of atoms, and finite sets of atoms.
ghost use Rattle.std.specs.Prelude.{◌≡◌, ◌↔◌, IsTrue, IfOk};
ghost use Rattle.ground_form.specs.Sets.{IsAscending, has};

use std::alloc::{AllocError, Global};
use std::hash::{Hash, Hasher};
use std::marker::Model;

/// The number of an atom in a ground program: its place in the list of atoms, counted from 1.
#[derive(Clone, Copy, Debug, PartialEq, Eq, PartialOrd, Ord, Hash)]
pub struct AtomId(pub u64);

/// The number of an answer set that a run or a certificate meets, counted from 1 in the order in which they are met.
#[derive(Clone, Copy, Debug, PartialEq, Eq, PartialOrd, Ord, Hash)]
pub struct SetId(pub u64);

/// A finite set of atoms: the list of its members, in ascending order and without repeats. Contracts see the list.
#[derive(Debug, Drop)]
pub struct AtomSet {
    ids: Vec<AtomId>,
}

impl Model for AtomSet {
    ghost use Rattle.std.specs.Prelude.{List};
    ghost use Rattle.std.specs.Coded.{coded_list};
    ghost use Rattle.ground_form.specs.declared.atoms.AtomId.{AtomId as Id};
    ghost use Rattle.ground_form.specs.contracts.atoms.AtomId.{the_row};
    ghost use Rattle.ground_form.specs.Sets.{IsAscending};

    ghost Value = { List Id };

    ghost coded = { coded_list the_row.coded };

    ghost view = { λ s. s.ids.items };

    ghost invariant = { λ s. IsAscending s.ids.items };
}

impl AtomSet {
    /// The set of these atoms. It takes no memory. The numbers have to ascend, each below the next one: `is_ascending`
    /// tells whether they do.
    pub fn new(ids: Vec<AtomId>) -> AtomSet
        requires { IsAscending ids.items }
        ensures { result ≡ ids.items }
    {
        AtomSet { ids }
    }

    /// The members, in ascending order.
    pub fn ids(&self) -> &[AtomId]
        ensures value { result.now ≡ self.now }
        ensures ascend { IsAscending self.now }
    {
        self.ids.as_slice()
    }

    /// Whether an atom is a member. It looks by halving.
    pub fn contains(&self, atom: AtomId) -> bool
        ensures { result ≡ has self.now atom.0 }
    {
        self.ids().binary_search(&atom).is_ok()
    }

    /// An equal set. Its one error is want of memory.
    pub fn copy(&self, alloc: Global) -> Result<AtomSet, AllocError>
        ensures { IfOk result (λ copy. copy ≡ self.now) }
    {
        Ok(AtomSet {
            ids: Vec::from_slice(alloc, self.ids.as_slice())?,
        })
    }
}

impl PartialEq for AtomSet {
    ghost use Rattle.std.specs.Cmp.{partial_equiv_from_equiv, on_equiv, nat_eq_equiv};
    ghost use Rattle.std.specs.Cmp.Lexicographic.{lists_equiv};
    ghost use Rattle.std.specs.Ordering.{on};
    ghost use Rattle.std.specs.Prelude.{nat_eq};
    ghost use lib.Pointwise.{pointwise};

    ghost eq = { pointwise (on (λ id. id.0) nat_eq) };

    ghost laws = { partial_equiv_from_equiv (lists_equiv (on_equiv (λ id. id.0) nat_eq_equiv)) };

    fn eq(&self, other: &AtomSet) -> bool {
        self.ids() == other.ids()
    }
}

impl Eq for AtomSet {
    ghost use Rattle.std.specs.Cmp.{on_equiv, nat_eq_equiv};
    ghost use Rattle.std.specs.Cmp.Lexicographic.{lists_equiv};

    ghost laws = { lists_equiv (on_equiv (λ id. id.0) nat_eq_equiv) };
}

impl Hash for AtomSet {
    ghost use Rattle.std.proofs.Common.{eqb-true, ap};
    ghost use Rattle.std.specs.Hash as fed;
    ghost use Rattle.std.specs.Hash.{items_Alike};

    ghost hash_input = { fed.slice (λ id. fed.u64 id.0) };

    ghost respects_eq = { (items_Alike (record { fed = λ x y h. ap fed.u64 (eqb-true x.0 y.0 h) })).fed };

    fn hash<H: Hasher>(&self, state: &mut H) {
        self.ids().hash(state);
    }
}

/// Whether the numbers of these atoms ascend, each below the next one.
pub fn is_ascending(ids: &[AtomId]) -> bool
    ensures { IsTrue result ↔ IsAscending ids.now }
{
    for place in 1..ids.len() {
        if ids[place].0 <= ids[place - 1].0 {
            return false;
        }
    }
    true
}
