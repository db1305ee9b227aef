// The answer sets of a program.
ghost use Rattle.std.specs.Prelude.{◌≡◌, ◌<◌, ◌≤◌, ℕ, List, IfOk, OnOk};
ghost use Rattle.ap_eval.specs.AnswerSets.{IsAnswerSet};
ghost use Rattle.ap_eval.specs.AtomSets.{has};
ghost use Rattle.small_optima.specs.Answers.{AreAnswerSets};
ghost use Rattle.small_optima.specs.Atoms.{atom_count};
ghost use Rattle.small_optima.specs.Kept.{Kept};

use crate::atoms::atoms_to_try;
use crate::optima::TrialFault;
use crate::subsets::subsets;
use ap_eval::small_answer_set;
use ap_syntax::Text;
use ap_syntax::small::Program;
use sqlite_items::Items;
use std::alloc::{AllocError, Global};

/// Those of the sets that are answer sets, in order.
fn answer_sets(
    alloc: Global,
    p: &Program,
    sets: Vec<Items<Text>>,
) -> Result<Vec<Items<Text>>, AllocError>
    ensures { IfOk result
        (λ found. Kept (λ (set : List (List ℕ)). IsAnswerSet p.now (has set)) sets.items found.items) }
{
    let mut found = Vec::new(alloc);
    for set in sets {
        if small_answer_set(alloc, p, set.as_slice())? {
            found.push(set)?;
        }
    }
    Ok(found)
}

/// All answer sets, in order. `TooMany` comes where the rules have more than 12 atoms.
pub fn all_answer_sets(alloc: Global, p: &Program) -> Result<Vec<Items<Text>>, TrialFault>
    ensures found { IfOk result (λ found. AreAnswerSets p.now found.items) }
    ensures few { OnOk result (atom_count p.now ≤ 12) }
    ensures many { result ≡ Err TrialFault.TooMany → 12 < atom_count p.now }
{
    let atoms = atoms_to_try(alloc, p)?;
    let sets = subsets(alloc, atoms.as_slice())?;
    Ok(answer_sets(alloc, p, sets)?)
}
