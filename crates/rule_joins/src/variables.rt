//! The places of variables.
ghost use Rattle.std.specs.Prelude.{◌≡◌, [], ◌∷◌, ◌++◌, Contains, IfOk, MatchOption, OnOk};
ghost use Rattle.rule_joins.specs.Drafts.{names_of};

use ap_term::Text;
use indexmap::IndexMap;
use sqlite_items::Items;
use std::alloc::{AllocError, Global};

/// The place of a variable, if it has one.
pub(crate) fn place_in(variables: &IndexMap<Text, u32>, name: &Text) -> Option<u32>
    ensures { MatchOption result (Contains (names_of variables.now.entries) name.now → ⊥) (λ place. Contains variables.now.entries (name.now, place)) }
{
    match variables.get(name) {
        Some(place) => Some(*place),
        None => None,
    }
}

/// Gives a variable that has no place this one.
pub(crate) fn put_in(
    variables: &mut IndexMap<Text, u32>,
    name: Text,
    place: u32,
) -> Result<(), AllocError>
    requires { Contains (names_of variables.old.entries) name → ⊥ }
    ensures { OnOk result (variables.new.entries ≡ variables.old.entries ++ (name, place) ∷ []) }
{
    let Ok(_) = variables.insert(name, place) else {
        return Err(AllocError);
    };
    Ok(())
}

/// The variables with their places, in the order in which they came.
pub(crate) fn copied(
    alloc: Global,
    variables: &IndexMap<Text, u32>,
) -> Result<Items<(Text, u32)>, AllocError>
    ensures { IfOk result (λ copies. copies ≡ variables.now.entries) }
{
    let mut copies = Items::new(alloc);
    for at in 0..variables.len() {
        let (name, place) = variables.get_index(at).unwrap();
        copies.push((name.copy(alloc)?, *place))?;
    }
    Ok(copies)
}
