// Sum steps.
ghost use Rattle.std.specs.Prelude.{◌↔◌, IsTrue};
ghost use Rattle.agg_nogoods.specs.Implied.{IsConsistent};
ghost use Rattle.proof_log.specs.Valid.{IsSumClause};

use agg_nogoods::implied;
use theory_form::{Clause, Theory, Var};

// Whether the guard is a sum variable whose row implies the clause.
pub(crate) fn is_sum_clause(theory: &Theory, guard: Var, lits: &Clause) -> bool
    requires { IsConsistent lits.now }
    ensures { IsTrue result ↔ IsSumClause theory.now guard lits.now }
{
    let _ = theory.var_count(); // its rows are reckoned without overflow
    match theory.row(guard) {
        Some(row) => implied(row, lits),
        None => false,
    }
}
