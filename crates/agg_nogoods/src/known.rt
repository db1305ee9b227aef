// Variables whose values are known.
ghost use Rattle.std.specs.Prelude.{◌≡◌, ℕ, Bool, Option};
ghost use Rattle.agg_nogoods.specs.Known.{has};

use theory_form::{Assignment, Clause, Lit, Var};

// What knows the values of some variables.
pub(crate) trait Known {
    ghost known: { Self → ℕ → Option Bool };

    fn value(&self, var: Var) -> Option<bool>
        ensures { result ≡ known self.now var.0 };
}

// A clause knows the values of its variables where it is false.
impl Known for Clause {
    ghost use Rattle.agg_nogoods.specs.Known.{known_where_false};

    ghost known = { λ c. known_where_false c };

    fn value(&self, var: Var) -> Option<bool> {
        if has(self, Lit { var, yes: true }) {
            Some(false)
        } else if has(self, Lit { var, yes: false }) {
            Some(true)
        } else {
            None
        }
    }
}

// An assignment knows its own values.
impl Known for Assignment {
    ghost use Rattle.theory_form.specs.Truth.{value_of};

    ghost known = { λ a. value_of a };

    fn value(&self, var: Var) -> Option<bool> {
        self.value(var)
    }
}

// An assignment with a value for one variable more, or the same value for it again.
#[derive(Clone, Copy)]
pub(crate) struct With<'a> {
    pub(crate) assignment: &'a Assignment,
    pub(crate) own: Var,
    pub(crate) holds: bool,
}

impl Known for With<'_> {
    ghost use Rattle.agg_nogoods.specs.Known.{known_with};

    ghost known = { λ w. known_with w.assignment.now w.own.0 w.holds };

    fn value(&self, var: Var) -> Option<bool> {
        if var == self.own {
            Some(self.holds)
        } else {
            self.assignment.value(var)
        }
    }
}

// Whether a clause has a literal.
pub(crate) fn has(clause: &Clause, literal: Lit) -> bool
    ensures { result ≡ has clause.now literal }
{
    clause.lits().binary_search(&literal).is_ok()
}
