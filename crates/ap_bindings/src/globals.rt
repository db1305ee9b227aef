// The global variables of a rule.
ghost use Rattle.std.specs.Prelude.{◌≡◌, ◌||◌, ◌++◌, ℕ, List, OnOk, IfOk};
ghost use Rattle.std.specs.List.{list_any};
ghost use Rattle.ap_pieces.specs.Pieces.{side_occurrences, mention_occurrences};
ghost use Rattle.std.specs.Str.{bytes_eq};
ghost use Rattle.ap_pieces.specs.Bound.{has_name, is_name_of, global_occurrences, globals};
ghost use Rattle.ap_bindings.specs.Searches.{names_in};

use crate::names::NameSet;
use ap_pieces::{Mention, Occurrence, Piece, Side};
use ap_syntax::Text;
use std::alloc::{AllocError, Global};

fn add_name(alloc: Global, set: &mut NameSet, name: &Option<Text>) -> Result<(), AllocError>
    ensures { OnOk result ((other : List ℕ) → names_in set.new other ≡ (names_in set.old other || has_name (bytes_eq other) name.now)) }
{
    match name {
        Some(name) => set.insert(alloc, name),
        None => Ok(()),
    }
}

fn add_all(alloc: Global, set: &mut NameSet, occurrences: &[Occurrence]) -> Result<(), AllocError>
    ensures { OnOk result ((other : List ℕ) → names_in set.new other ≡ (names_in set.old other || list_any (is_name_of other) occurrences.now)) }
{
    for occurrence in occurrences {
        add_name(alloc, set, &occurrence.name)?;
    }
    Ok(())
}

fn add_side(alloc: Global, set: &mut NameSet, side: &Side) -> Result<(), AllocError>
    ensures { OnOk result ((other : List ℕ) → names_in set.new other ≡ (names_in set.old other || list_any (is_name_of other) (side_occurrences side.now))) }
{
    match side {
        Side::Variable(name) => set.insert(alloc, name),
        Side::Any => Ok(()),
        Side::Compound(occurrences) => add_all(alloc, set, occurrences.as_slice()),
    }
}

fn add_sides(alloc: Global, set: &mut NameSet, left: &Side, right: &Side) -> Result<(), AllocError>
    ensures { OnOk result ((other : List ℕ) → names_in set.new other ≡ (names_in set.old other || list_any (is_name_of other) (side_occurrences left.now ++ side_occurrences right.now))) }
{
    add_side(alloc, set, left)?;
    add_side(alloc, set, right)?;
    Ok(())
}

fn add_mention(alloc: Global, set: &mut NameSet, mention: &Mention) -> Result<(), AllocError>
    ensures { OnOk result ((other : List ℕ) → names_in set.new other ≡ (names_in set.old other || list_any (is_name_of other) (mention_occurrences mention.now))) }
{
    match mention {
        Mention::Atom(occurrences) => add_all(alloc, set, occurrences.as_slice()),
        Mention::Equal(left, right) => add_sides(alloc, set, left, right),
        Mention::Other(occurrences) => add_all(alloc, set, occurrences.as_slice()),
    }
}

fn add_piece(alloc: Global, set: &mut NameSet, piece: &Piece) -> Result<(), AllocError>
    ensures { OnOk result ((other : List ℕ) → names_in set.new other ≡ (names_in set.old other || list_any (is_name_of other) (global_occurrences piece.now))) }
{
    match piece {
        Piece::Uses(occurrences) => add_all(alloc, set, occurrences.as_slice()),
        Piece::Plain(mention) => add_mention(alloc, set, mention),
        Piece::Value(side, _, _) => add_side(alloc, set, side),
        Piece::Part(_, _) => Ok(()),
    }
}

/// The global variables of a rule.
pub(crate) fn globals_of(alloc: Global, pieces: &[Piece]) -> Result<NameSet, AllocError>
    ensures { IfOk result (λ set. (name : List ℕ) → names_in set name ≡ globals pieces.now name) }
{
    let mut set = NameSet::new(alloc);
    for piece in pieces {
        add_piece(alloc, &mut set, piece)?;
    }
    Ok(set)
}
