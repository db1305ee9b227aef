// The sets that are tried.
ghost use Rattle.std.specs.Prelude.{◌≡◌, ◌∷◌, [], ◌++◌, ℕ, List, map, IfOk, OnOk};
ghost use Rattle.small_optima.specs.Sublists.{nonempty_sublists, sublists};

use ap_syntax::Text;
use sqlite_items::Items;
use std::alloc::{AllocError, Global};

/// The set of this atom and those of another set, the former first.
fn with_atom(alloc: Global, atom: &Text, set: &[Text]) -> Result<Items<Text>, AllocError>
    ensures { IfOk result (λ all. all ≡ atom.now ∷ set.now) }
{
    let mut all = Items::new(alloc);
    all.push(atom.copy(alloc)?)?;
    for other in set {
        all.push(other.copy(alloc)?)?;
    }
    Ok(all)
}

/// Adds each of these sets with this atom before its atoms.
fn push_with_atom(
    alloc: Global,
    all: &mut Vec<Items<Text>>,
    atom: &Text,
    sets: &[Items<Text>],
) -> Result<(), AllocError>
    ensures { OnOk result
        (all.new.items ≡ all.old.items ++ map (λ (set : List (List ℕ)). atom.now ∷ set) sets.now) }
{
    for set in sets {
        all.push(with_atom(alloc, atom, set.as_slice())?)?;
    }
    Ok(())
}

/// The sets of one or more of these atoms, in the order in which a dictionary has words.
fn nonempty_subsets(alloc: Global, atoms: &[Text]) -> Result<Vec<Items<Text>>, AllocError>
    ensures { IfOk result (λ sets. sets.items ≡ nonempty_sublists atoms.now) }
{
    let mut all = Vec::new(alloc);
    if let [first, rest @ ..] = atoms {
        let mut later = nonempty_subsets(alloc, rest)?;
        all.push(with_atom(alloc, first, &[])?)?;
        push_with_atom(alloc, &mut all, first, &later)?;
        all.append(&mut later)?;
    }
    Ok(all)
}

/// The sets of some or none of these atoms, in the order in which a dictionary has words.
pub fn subsets(alloc: Global, atoms: &[Text]) -> Result<Vec<Items<Text>>, AllocError>
    ensures { IfOk result (λ sets. sets.items ≡ sublists atoms.now) }
{
    let mut all = Vec::new(alloc);
    all.push(Items::new(alloc))?;
    all.append(&mut nonempty_subsets(alloc, atoms)?)?;
    Ok(all)
}
