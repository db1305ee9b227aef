// The optimal answer sets.
ghost use Rattle.std.specs.Prelude.{◌≡◌, ◌<◌, ◌≤◌, IfOk, OnOk, IsErrOf};
ghost use Rattle.small_optima.specs.Atoms.{atom_count};
ghost use Rattle.small_optima.specs.Optima.{AreOptima};
ghost use Rattle.small_optima.specs.declared.optima.TrialFault.TheVariants.{Memory};

use crate::answers::all_answer_sets;
use crate::preferred::unbeaten_sets;
use ap_syntax::Text;
use ap_syntax::small::Program;
use sqlite_items::Items;
use std::alloc::{AllocError, AllocFailed, Global};
use std::error::Error;
use thiserror::Error;

/// What trying all sets of a program's atoms comes to.
#[derive(Drop)]
pub enum Optima {
    /// There is no answer set.
    Unsatisfiable,
    /// The optimal answer sets, at least one. Each is the list of its atoms in order, and the lists are in order.
    Listing(Vec<Items<Text>>),
}

/// Why the sets of a program's atoms were not tried.
#[derive(Clone, Copy, Debug, PartialEq, Eq, Error)]
pub enum TrialFault {
    /// The rules have more than 12 atoms.
    #[error("more than 12 atoms")]
    TooMany,
    /// Memory ran out.
    #[error("out of memory")]
    Memory,
}

impl From<AllocError> for TrialFault {
    ghost from_gives = { λ _ fault. fault ≡ Memory };

    fn from(_: AllocError) -> TrialFault {
        TrialFault::Memory
    }
}

impl<T: Drop> From<AllocFailed<T>> for TrialFault {
    ghost from_gives = { λ _ fault. fault ≡ Memory };

    fn from(_: AllocFailed<T>) -> TrialFault {
        TrialFault::Memory
    }
}

/// Lists the optimal answer sets of a program, in order. `TooMany` comes exactly where its rules have more than 12
/// atoms.
pub fn list_optima(alloc: Global, p: &Program) -> Result<Optima, TrialFault>
    ensures found { IfOk result (AreOptima p.now) }
    ensures few { OnOk result (atom_count p.now ≤ 12) }
    ensures many { result ≡ Err TrialFault.TooMany → 12 < atom_count p.now }
{
    let found = all_answer_sets(alloc, p)?;
    if found.is_empty() {
        return Ok(Optima::Unsatisfiable);
    }
    Ok(Optima::Listing(unbeaten_sets(alloc, p, found)?))
}
