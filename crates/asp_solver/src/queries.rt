// The open queries of a solver, by their assumptions.
ghost use Rattle.std.specs.Prelude.{◌≡◌, ◌+◌, ◌<◌, ◌≤◌, ◌++◌, ◌∷◌, [], length, position, vec_capacity, IfOk, OnErr, OnOk, IsTrue};
ghost use lib.Pointwise.{pointwise};
ghost use Rattle.theory_form.specs.Order.{lit_eq};
ghost use Rattle.asp_solver.specs.Views.{next_period, without};

use asp_engine::{Period, Query};
use sqlite_items::Items;
use std::alloc::{AllocError, Global};
use theory_form::Lit;

// Whether a query has these assumptions, in this order.
fn has_assumptions(query: &Query, assume: &[Lit]) -> bool
    ensures { result ≡ pointwise lit_eq query.now.assume assume.now }
{
    query.assume.as_slice() == assume
}

// The place of the query with these assumptions.
fn position_of(queries: &[Query], assume: &[Lit]) -> Option<usize>
    ensures { result ≡ position (λ q. pointwise lit_eq q.assume assume.now) queries.now }
{
    queries
        .iter()
        .position(|query| has_assumptions(query, assume))
}

// Takes the query with these assumptions out, or begins one if it is not open. There is room for it then. Only memory can run out, and
// then nothing changes.
pub(crate) fn open(
    alloc: Global,
    queries: &mut Vec<Query>,
    assume: &[Lit],
) -> Result<Query, AllocError>
    ensures assume { IfOk result (λ q. q.assume ≡ assume.now) }
    ensures period { IfOk result (λ q. q.period ≡ next_period queries.old.items assume.now) }
    ensures others { OnOk result (queries.new.items ≡ without queries.old.items assume.now) }
    ensures room { OnOk result (length queries.new.items < vec_capacity queries.new) }
    ensures err { OnErr result (queries.new.items ≡ queries.old.items) }
{
    match position_of(queries.as_slice(), assume) {
        Some(place) => return Ok(queries.remove(place)),
        None => {}
    }
    queries.reserve(1)?;
    let assume = Items::from_slice(alloc, assume)?;
    Ok(Query {
        assume,
        period: Period::first(alloc),
    })
}
