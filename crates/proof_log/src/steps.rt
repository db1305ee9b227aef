// Steps of a log.
ghost use Rattle.std.specs.Prelude.{◌≡◌, ◌↔◌, IsTrue, IfOk};
ghost use Rattle.proof_log.specs.Steps.{IsStep};

use crate::conditions::{are_atoms, are_hints, are_literals, are_variables};
use ground_form::{AtomSet, SetId};
use sqlite_items::Items;
use std::alloc::{AllocError, Global};
use theory_form::{Clause, ClauseId, Var};

/// One step of a log. Variables, clauses and sets are named by their numbers, which count from 1; a step that adds a
/// clause gives it the next number.
///
/// * `Found`: an answer set of the base was found.
/// * `Passed`: the set `by` is preferred to the set `set`.
/// * `Improve`: the improvement copy is made.
/// * `Dominate`: the dominance copy of a set is made.
/// * `Exclude`: the clause is added that excludes a set from the search.
/// * `Learn`: the clause is added, which follows by the hints, which are numbers of clauses.
/// * `Loop`: the loop clause of `atom` is added, for the set of `atom` and `others`.
/// * `Sum`: the clause is added, which the row of `guard` implies.
/// * `Erase`: a clause that was added by one of the last three is taken away.
/// * `Optimal`: a set is listed as optimal, as the clause shows.
/// * `Closed`: the search ends, as the clause shows.
#[derive(Drop)]
pub enum Step {
    Found {
        atoms: AtomSet,
    },
    Passed {
        set: SetId,
        by: SetId,
    },
    Improve,
    Dominate {
        set: SetId,
    },
    Exclude {
        set: SetId,
    },
    Learn {
        lits: Clause,
        hints: Items<ClauseId>,
    },
    Loop {
        atom: Var,
        others: Items<Var>,
    },
    Sum {
        guard: Var,
        lits: Clause,
    },
    Erase {
        clause: ClauseId,
    },
    Optimal {
        set: SetId,
        clause: ClauseId,
    },
    Closed {
        clause: ClauseId,
    },
}

// An equal list.
fn copy_items<T: Copy>(alloc: Global, items: &Items<T>) -> Result<Items<T>, AllocError>
    ensures { IfOk result (λ copy. copy ≡ items.now) }
{
    Items::from_slice(alloc, items.as_slice())
}

impl Step {
    /// Whether it meets what is a condition of every call that takes a step: no list of it has 0 as a member, its lists of
    /// atoms, variables and literals ascend without repeats, and no clause of it holds a literal and its opposite.
    pub fn is_step(&self) -> bool
        ensures { IsTrue result ↔ IsStep self.now }
    {
        match self {
            Step::Found { atoms } => are_atoms(atoms),
            Step::Learn { lits, hints } => are_literals(lits) && are_hints(hints.as_slice()),
            Step::Loop { others, .. } => are_variables(others.as_slice()),
            Step::Sum { lits, .. } => are_literals(lits),
            Step::Passed { .. } => true,
            Step::Improve => true,
            Step::Dominate { .. } => true,
            Step::Exclude { .. } => true,
            Step::Erase { .. } => true,
            Step::Optimal { .. } => true,
            Step::Closed { .. } => true,
        }
    }

    /// An equal step. Only memory can run out.
    pub fn copy(&self, alloc: Global) -> Result<Step, AllocError>
        ensures { IfOk result (λ copy. copy ≡ self.now) }
    {
        match self {
            Step::Found { atoms } => {
                let atoms = atoms.copy(alloc)?;
                Ok(Step::Found { atoms })
            }
            Step::Passed { set, by } => Ok(Step::Passed { set: *set, by: *by }),
            Step::Improve => Ok(Step::Improve),
            Step::Dominate { set } => Ok(Step::Dominate { set: *set }),
            Step::Exclude { set } => Ok(Step::Exclude { set: *set }),
            Step::Learn { lits, hints } => {
                let lits = lits.copy(alloc)?;
                let hints = copy_items(alloc, hints)?;
                Ok(Step::Learn { lits, hints })
            }
            Step::Loop { atom, others } => {
                let others = copy_items(alloc, others)?;
                Ok(Step::Loop {
                    atom: *atom,
                    others,
                })
            }
            Step::Sum { guard, lits } => {
                let lits = lits.copy(alloc)?;
                Ok(Step::Sum {
                    guard: *guard,
                    lits,
                })
            }
            Step::Erase { clause } => Ok(Step::Erase { clause: *clause }),
            Step::Optimal { set, clause } => Ok(Step::Optimal {
                set: *set,
                clause: *clause,
            }),
            Step::Closed { clause } => Ok(Step::Closed { clause: *clause }),
        }
    }
}
