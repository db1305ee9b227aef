// Clauses of sums under an assignment.
ghost use Rattle.std.specs.Prelude.{◌≡◌, ◌+◌, ℕ, None, Some, length, IfNone, IfOk, IfSome};
ghost use Rattle.theory_form.specs.declared.rows.SumRow.{SumRow as Row};
ghost use Rattle.theory_form.specs.Theories.{row_of};
ghost use Rattle.theory_model.specs.Whole.{IsWhole};
ghost use Rattle.agg_nogoods.specs.Implied.{IsAnswer};
ghost use Rattle.proof_log.specs.declared.steps.Step.TheVariants.{Sum};
ghost use Rattle.asp_engine.specs.Lates.{IsLate};

use crate::additions::Late;
use agg_nogoods::propagate;
use proof_log::Step;
use std::alloc::{AllocError, Global};
use theory_form::{Assignment, Clause, Theory, Var};

// What is added for a clause that the row of a variable implies.
fn sum_of(alloc: Global, guard: Var, clause: Clause) -> Result<Late, AllocError>
    ensures { IfOk result (λ l. (l.clause ≡ clause) × (l.step ≡ Sum guard clause)) }
{
    let step = Step::Sum {
        guard,
        lits: clause.copy(alloc)?,
    };
    Ok(Late { clause, step })
}

// What is added for the row of a variable.
fn find_sum_of(
    alloc: Global,
    t: &Theory,
    a: &Assignment,
    v: Var,
) -> Result<Option<Late>, AllocError>
    requires whole { IsWhole t.now }
    ensures some { IfOk result (λ o. IfSome o (IsLate t.now a.now)) }
    ensures none { IfOk result (λ o. IfNone o ((row : Row) → row_of t.now v.0 ≡ Some row → IsAnswer row a.now None)) }
{
    let _ = t.var_count(); // its rows are reckoned without overflow
    let Some(row) = t.row(v) else {
        return Ok(None);
    };
    let found = propagate(alloc, row, a)?;
    match found {
        None => Ok(None),
        Some(clause) => {
            let _ = clause.lits(); // they ascend
            let late = sum_of(alloc, v, clause)?;
            Ok(Some(late))
        }
    }
}

// What is added for the first row that implies a clause.
pub(crate) fn find_sum(
    alloc: Global,
    t: &Theory,
    a: &Assignment,
) -> Result<Option<Late>, AllocError>
    requires whole { IsWhole t.now }
    requires places { length a.now ≡ length t.now.variables + 1 }
    ensures some { IfOk result (λ o. IfSome o (IsLate t.now a.now)) }
    ensures none { IfOk result (λ o. IfNone o ((v : ℕ) (row : Row) → row_of t.now v ≡ Some row → IsAnswer row a.now None)) }
{
    for number in 0..t.var_count() {
        let found = find_sum_of(alloc, t, a, Var(number + 1))?;
        match found {
            Some(late) => return Ok(Some(late)),
            None => {}
        }
    }
    Ok(None)
}
