// Clauses by their numbers.
ghost use Rattle.std.specs.Prelude.{◌≡◌, ◌↔◌, ◌<◌, IsTrue, IsSome, vec_capacity};
ghost use Rattle.std.specs.Option.{option_copied};
ghost use Rattle.proof_log.specs.Added.{slots_of};
ghost use Rattle.proof_log.specs.States.{clause_among, put};
ghost use Rattle.proof_log.specs.Valid.{AreClauses};

use crate::added::Added;
use theory_form::{Clause, ClauseId, Theory};

// The clause of a number: the theory's, or the one that was added under it.
pub(crate) fn clause_among<'a>(
    theory: &'a Theory,
    added: &'a Added,
    id: ClauseId,
) -> Option<&'a Clause>
    ensures { option_copied result ≡ clause_among theory.now (slots_of added.now) id.0 }
{
    match theory.clause(id) {
        Some(clause) => Some(clause),
        None => added.get(id),
    }
}

// Whether there is one of this number.
fn is_clause(theory: &Theory, added: &Added, id: ClauseId) -> bool
    ensures { IsTrue result ↔ IsSome (clause_among theory.now (slots_of added.now) id.0) }
{
    clause_among(theory, added, id).is_some()
}

// Whether there is one of each of these numbers.
pub(crate) fn are_clauses(theory: &Theory, added: &Added, hints: &[ClauseId]) -> bool
    ensures { IsTrue result ↔ AreClauses (clause_among theory.now (slots_of added.now)) hints.now }
{
    hints.iter().all(|id| is_clause(theory, added, *id))
}

// Puts a clause at a place of a list by number.
pub(crate) fn put(added: &mut Vec<Option<Clause>>, place: usize, clause: Clause)
    requires { place < vec_capacity added.old }
    ensures { added.new.items ≡ put added.old.items place clause }
{
    while added.len() <= place {
        added.push_reserved(None);
    }
    added[place] = Some(clause);
}
