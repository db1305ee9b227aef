// Which clauses are reasons.
ghost use Rattle.std.specs.Prelude.{◌≡◌, ◌↔◌, Any, IsTrue};
ghost use Rattle.asp_store.specs.Store.{IsBecauseOf};

use asp_trail::{Trail, Why};
use theory_form::{ClauseId, Lit, Var};

/// Whether a clause is the reason of the variable of one of these literals.
pub fn is_reason_in(trail: &Trail, lits: &[Lit], id: ClauseId) -> bool
    ensures { IsTrue result ↔ Any (λ l. IsBecauseOf trail.now.entries l.var.0 id.0) lits.now }
{
    lits.iter().any(|l| is_because_of(trail, l.var, id))
}

// Whether a variable was assigned because of a clause.
fn is_because_of(trail: &Trail, v: Var, id: ClauseId) -> bool
    ensures { IsTrue result ↔ IsBecauseOf trail.now.entries v.0 id.0 }
{
    match trail.why(v) {
        Some((Why::Clause(reason), _)) => reason == id,
        _ => false,
    }
}
