// The sum rule.
ghost use Rattle.std.specs.Prelude.{◌≡◌, ◌↔◌, IsTrue};
ghost use Rattle.theory_form.specs.Kinds.{IsRow};
ghost use Rattle.agg_nogoods.specs.Implied.{HoldsWithRow, IsConsistent, IsImplied};
ghost use Rattle.agg_nogoods.specs.Ends.{follows_by_ends};

use crate::ends::ends_of;
use crate::known::has;
use theory_form::{Clause, Lit, SumRow};

/// Whether the row implies the clause by the sum rule: it has the negation of the row's variable, and the greatest sum that
/// the row can have where the clause is false stays below the bound; or it has the variable itself, and the least such sum
/// reaches the bound. It takes no memory.
///
/// Such a clause is true wherever the row's variable is true exactly where the sum reaches the bound.
pub fn implied(row: &SumRow, c: &Clause) -> bool
    requires row { IsRow row.now.terms row.now.bound }
    requires consistent { IsConsistent c.now }
    ensures exact { IsTrue result ↔ IsImplied row.now c.now }
    ensures holds { IsTrue result → HoldsWithRow row.now c.now }
{
    follows_by_ends(row, c)
}

// The sum rule by the ends of the sum where the clause is false.
fn follows_by_ends(row: &SumRow, c: &Clause) -> bool
    requires { IsRow row.now.terms row.now.bound }
    ensures { result ≡ follows_by_ends row.now c.now }
{
    let ends = ends_of(row.terms.as_slice(), c);
    let own = Lit {
        var: row.var,
        yes: true,
    };
    has(c, own.opposite()) && ends.greatest < row.bound || has(c, own) && row.bound <= ends.least
}
