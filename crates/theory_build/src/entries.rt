// Variables with their clauses.
ghost use Rattle.std.specs.Prelude.{◌≡◌, IfOk};
ghost use Rattle.theory_build.specs.Entries as spec;

use crate::clauses::{Clauses, conjunction, positive, support_clauses};
use sqlite_items::Items;
use std::alloc::{AllocError, Global};
use theory_form::{Clause, Lit, Var, VarKind};

// A variable that is to be added to a theory, with the clauses that come with it.
#[derive(Drop)]
pub struct Entry {
    pub kind: VarKind,
    pub clauses: Clauses,
}

impl Entry {
    // The variable v for the conjunction of these literals.
    pub(crate) fn all_of(alloc: Global, v: u64, lits: &[Lit]) -> Result<Entry, AllocError>
        ensures { IfOk result (λ entry. entry ≡ spec.all_of v lits.now) }
    {
        Ok(Entry {
            kind: VarKind::Other,
            clauses: conjunction(alloc, v, lits)?,
        })
    }

    // The variable v for the disjunction of these literals.
    pub(crate) fn any_of(alloc: Global, v: u64, lits: &[Lit]) -> Result<Entry, AllocError>
        ensures { IfOk result (λ entry. entry ≡ spec.any_of v lits.now) }
    {
        Ok(Entry {
            kind: VarKind::Other,
            clauses: support_clauses(alloc, v, lits, lits)?,
        })
    }

    // A variable for that the sum of these terms reaches the bound.
    pub(crate) fn reaches(
        alloc: Global,
        terms: &[(i64, Var)],
        bound: i64,
    ) -> Result<Entry, AllocError>
        ensures { IfOk result (λ entry. entry ≡ spec.reaches terms.now bound) }
    {
        let terms = Items::from_slice(alloc, terms)?;
        Ok(Entry {
            kind: VarKind::Sum { terms, bound },
            clauses: Clauses::new(Vec::new(alloc)),
        })
    }

    // The variable v for a body of these literals.
    pub(crate) fn body(alloc: Global, v: u64, lits: Items<Lit>) -> Result<Entry, AllocError>
        ensures { IfOk result (λ entry. entry ≡ spec.body_entry v lits) }
    {
        let clauses = conjunction(alloc, v, lits.as_slice())?;
        Ok(Entry {
            kind: VarKind::Body { lits },
            clauses,
        })
    }

    // The variable v that is true.
    pub(crate) fn truth(alloc: Global, v: u64) -> Result<Entry, AllocError>
        ensures { IfOk result (λ entry. entry ≡ spec.truth_entry v) }
    {
        let clause = Clause::new(vec![in alloc; positive(v)]?);
        Ok(Entry {
            kind: VarKind::Other,
            clauses: Clauses::new(vec![in alloc; clause]?),
        })
    }

    // A search guard.
    pub(crate) fn search(alloc: Global) -> Entry
        ensures { result ≡ spec.search_entry }
    {
        Entry {
            kind: VarKind::Search,
            clauses: Clauses::new(Vec::new(alloc)),
        }
    }
}
