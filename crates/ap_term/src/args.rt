//! The arguments of a term.
ghost use Rattle.std.specs.Prelude.{◌≡◌, ◌↔◌, [], length, IsTrue};

use crate::shape::TermId;
use std::hash::{Hash, Hasher};
use std::marker::Model;

/// The arguments of a compound term or the members of a tuple, from first to last. Contracts see the list of them.
#[derive(Debug, Drop)]
pub struct Args {
    ids: Vec<TermId>,
}

impl Model for Args {
    ghost use Rattle.std.specs.Prelude.{List};
    ghost use Rattle.std.specs.Coded.{coded_list, code_by, coded_ℕ};
    ghost use Rattle.ap_term.specs.declared.shape.TermId.{TermId as Id};
    ghost use Rattle.ap_term.specs.contracts.shape.TermId.{the_row};

    ghost Value = { List Id };

    ghost coded = { coded_list the_row.coded };

    ghost view = { λ a. a.ids.items };
}

impl Args {
    /// These arguments. It takes no memory.
    pub fn from_vec(ids: Vec<TermId>) -> Args
        ensures { result ≡ ids.items }
    {
        Args { ids }
    }

    /// The same arguments, to be looked at.
    pub fn as_slice(&self) -> &[TermId]
        ensures { result.now ≡ self.now }
    {
        self.ids.as_slice()
    }

    /// The arguments. It takes no memory.
    pub fn into_vec(self) -> Vec<TermId>
        ensures { result.items ≡ self }
    {
        let Args { ids } = self;
        ids
    }

    /// How many there are.
    pub fn len(&self) -> usize
        ensures { result ≡ length self.now }
    {
        self.ids.len()
    }

    /// Whether there are none.
    pub fn is_empty(&self) -> bool
        ensures { IsTrue result ↔ (self.now ≡ []) }
    {
        self.ids.is_empty()
    }
}

impl PartialEq for Args {
    ghost use Rattle.std.specs.Cmp.{partial_equiv_from_equiv, on_equiv, nat_eq_equiv};
    ghost use Rattle.std.specs.Cmp.Lexicographic.{lists_equiv};
    ghost use Rattle.std.specs.Ordering.{on};
    ghost use Rattle.std.specs.Prelude.{nat_eq};
    ghost use lib.Pointwise.{pointwise};

    ghost eq = { pointwise (on (λ id. id.0) nat_eq) };

    ghost laws = { partial_equiv_from_equiv (lists_equiv (on_equiv (λ id. id.0) nat_eq_equiv)) };

    fn eq(&self, other: &Args) -> bool {
        self.as_slice() == other.as_slice()
    }
}

impl Eq for Args {
    ghost use Rattle.std.specs.Cmp.{on_equiv, nat_eq_equiv};
    ghost use Rattle.std.specs.Cmp.Lexicographic.{lists_equiv};

    ghost laws = { lists_equiv (on_equiv (λ id. id.0) nat_eq_equiv) };
}

impl Hash for Args {
    ghost use Rattle.std.proofs.Common.{eqb-true, ap};
    ghost use Rattle.std.specs.Hash as fed;
    ghost use Rattle.std.specs.Hash.{items_Alike};

    ghost hash_input = { fed.slice (λ id. fed.u64 id.0) };

    ghost respects_eq = { (items_Alike (record { fed = λ x y h. ap fed.u64 (eqb-true x.0 y.0 h) })).fed };

    fn hash<H: Hasher>(&self, state: &mut H) {
        self.as_slice().hash(state);
    }
}
