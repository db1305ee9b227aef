// Variables, literals and the numbers of clauses.
ghost use Rattle.std.specs.Prelude.{◌≡◌};
ghost use Rattle.theory_form.specs.Literals.{opposite};

use std::cmp::Ordering;

/// A variable, by its number. The first variable of a theory is number 1, and no variable has number 0, which is the
/// default.
#[derive(Clone, Copy, Default, PartialEq, Eq, PartialOrd, Ord, Debug)]
pub struct Var(pub u64);

/// The number of a clause. The first clause of a theory is number 1.
#[derive(Clone, Copy, PartialEq, Eq, PartialOrd, Ord, Debug)]
pub struct ClauseId(pub u64);

/// A variable, or its negation where `yes` is false. Literals are ordered by variable, the positive one first.
#[derive(Clone, Copy, Default, PartialEq, Eq, Debug)]
pub struct Lit {
    pub var: Var,
    pub yes: bool,
}

impl Lit {
    /// The literal that is true exactly where this one is false.
    pub fn opposite(self) -> Lit
        ensures { result ≡ opposite self }
    {
        Lit {
            var: self.var,
            yes: !self.yes,
        }
    }
}

impl PartialOrd for Lit {
    ghost use Rattle.std.specs.Ordering.{as_partial_cmp};
    ghost use Rattle.theory_form.specs.Literals.{lit_cmp};
    ghost use Rattle.theory_form.specs.Order.{lit_partial_order};

    ghost partial_cmp = { as_partial_cmp lit_cmp };

    ghost laws = { lit_partial_order };

    fn partial_cmp(&self, other: &Lit) -> Option<Ordering> {
        Some(self.cmp(other))
    }
}

impl Ord for Lit {
    ghost use Rattle.std.specs.Prelude.{refl};
    ghost use Rattle.theory_form.specs.Literals.{lit_cmp};
    ghost use Rattle.theory_form.specs.Order.{lit_total, lit_ties};

    ghost cmp = { lit_cmp };

    ghost total = { lit_total };

    ghost matches_partial_cmp = { λ x y. refl };

    ghost matches_eq = { lit_ties };

    fn cmp(&self, other: &Lit) -> Ordering {
        match self.var.0.cmp(&other.var.0) {
            Ordering::Equal => other.yes.cmp(&self.yes),
            unequal => unequal,
        }
    }
}
