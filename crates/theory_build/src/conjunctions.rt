// Lists of literals in order.
ghost use Rattle.std.specs.Prelude.{◌≡◌};

use sqlite_items::Items;
use std::cmp::Ordering;
use std::marker::Model;
use theory_form::Lit;

// The literals of a body. Lists are ordered member by member, a proper prefix first.
#[derive(Drop)]
pub struct Conjunction {
    lits: Items<Lit>,
}

impl Model for Conjunction {
    ghost use Rattle.std.specs.Prelude.{List};
    ghost use Rattle.theory_form.specs.declared.literals.Lit.{Lit};

    ghost Value = { List Lit };

    ghost view = { λ c. c.lits };
}

impl Conjunction {
    // The body of these literals.
    pub(crate) fn new(lits: Vec<Lit>) -> Self
        ensures { result ≡ lits.items }
    {
        Conjunction {
            lits: Items::from_vec(lits),
        }
    }

    // Its literals.
    pub(crate) fn into_lits(self) -> Items<Lit>
        ensures { result ≡ self }
    {
        let Conjunction { lits } = self;
        lits
    }
}

impl PartialEq for Conjunction {
    ghost use Rattle.theory_build.specs.Order.{lits_eq, lits_equivalence};
    ghost use Rattle.std.specs.Cmp;

    ghost eq = { lits_eq };

    ghost laws = { Cmp.partial_equiv_from_equiv lits_equivalence };

    fn eq(&self, other: &Conjunction) -> bool {
        self.cmp(other) == Ordering::Equal
    }
}

impl Eq for Conjunction {
    ghost use Rattle.theory_build.specs.Order.{lits_equivalence};

    ghost laws = { lits_equivalence };
}

impl PartialOrd for Conjunction {
    ghost use Rattle.std.specs.Ordering.{as_partial_cmp};
    ghost use Rattle.theory_build.specs.Ascending.{lits_cmp};
    ghost use Rattle.theory_build.specs.Order.{lits_partial_order};

    ghost partial_cmp = { as_partial_cmp lits_cmp };

    ghost laws = { lits_partial_order };

    fn partial_cmp(&self, other: &Conjunction) -> Option<Ordering> {
        Some(self.cmp(other))
    }
}

impl Ord for Conjunction {
    ghost use Rattle.std.specs.Prelude.{refl};
    ghost use Rattle.theory_build.specs.Ascending.{lits_cmp};
    ghost use Rattle.theory_build.specs.Order.{lits_total};

    ghost cmp = { lits_cmp };

    ghost total = { lits_total };

    ghost matches_partial_cmp = { λ x y. refl };

    ghost matches_eq = { λ x y. refl };

    fn cmp(&self, other: &Conjunction) -> Ordering {
        self.lits.as_slice().cmp(other.lits.as_slice())
    }
}
