// The first unbound variable of a rule or an element.
ghost use Rattle.std.specs.Prelude.{◌≡◌, ℕ, List, false, IfOk};
ghost use Rattle.ap_pieces.specs.declared.pieces.Piece.TheVariants as piece;
ghost use Rattle.ap_pieces.specs.Bound.{unbound, unbound_side, unbound_mention};
ghost use Rattle.ap_bindings.specs.Unsafe.{definite_by};
ghost use Rattle.ap_bindings.specs.Searches.{names_in, marked_in, first_name, first_or, IsFirstUnboundOf, IsFirstAmong, IsFirstUnbound};

use crate::aggregates::other_side;
use crate::binding::{Bound, bound_by, bound_outside};
use crate::globals::globals_of;
use crate::names::NameSet;
use crate::scope::{
    Scope, first_unbound_in, first_unbound_mention, first_unbound_part, first_unbound_side,
};
use ap_pieces::{Mention, Occurrence, Piece, Side};
use ap_syntax::Text;
use pred_graph::Safe;
use std::alloc::{AllocError, Global};

/// The first of the head's or a guard's occurrences that is not bound. `none` is the empty set.
fn unbound_uses(
    alloc: Global,
    none: &NameSet,
    outside: &Bound,
    occurrences: &[Occurrence],
) -> Result<Option<Text>, AllocError>
    requires none { (name : List ℕ) → names_in none.now name ≡ false }
    ensures { IfOk result (λ first. first ≡ first_name (unbound (marked_in outside.now) occurrences.now)) }
{
    let scope = Scope {
        globals: none,
        outside,
        within: outside,
    };
    first_unbound_in(alloc, &scope, occurrences)
}

/// The first occurrence in a literal of the body that is not bound. `none` is the empty set.
fn unbound_plain(
    alloc: Global,
    none: &NameSet,
    outside: &Bound,
    mention: &Mention,
) -> Result<Option<Text>, AllocError>
    requires none { (name : List ℕ) → names_in none.now name ≡ false }
    ensures { IfOk result (λ first. first ≡ first_name (unbound_mention (marked_in outside.now) (marked_in outside.now) mention.now)) }
{
    let scope = Scope {
        globals: none,
        outside,
        within: outside,
    };
    first_unbound_mention(alloc, &scope, mention)
}

/// The first occurrence in the guard of an aggregate that is not bound. `none` is the empty set, and `other` is the aggregate as
/// the other side of `=`.
fn unbound_guard(
    alloc: Global,
    none: &NameSet,
    outside: &Bound,
    side: &Side,
    other: &Side,
) -> Result<Option<Text>, AllocError>
    requires none { (name : List ℕ) → names_in none.now name ≡ false }
    ensures { IfOk result (λ first. first ≡ first_name (unbound_side (marked_in outside.now) (marked_in outside.now) side.now other.now)) }
{
    let scope = Scope {
        globals: none,
        outside,
        within: outside,
    };
    first_unbound_side(alloc, &scope, side, other)
}

/// The first occurrence in a part that is not bound.
fn unbound_within(
    alloc: Global,
    safe: &Safe,
    globals: &NameSet,
    outside: &Bound,
    occurrences: &[Occurrence],
    condition: &[Mention],
) -> Result<Option<Text>, AllocError>
    ensures { IfOk result (IsFirstUnboundOf (definite_by safe.now) (names_in globals.now) (marked_in outside.now) (piece.Part occurrences.now condition.now)) }
{
    let within = bound_by(alloc, globals, condition)?;
    let scope = Scope {
        globals,
        outside,
        within: &within,
    };
    first_unbound_part(alloc, &scope, occurrences, condition)
}

fn unbound_of(
    alloc: Global,
    safe: &Safe,
    none: &NameSet,
    globals: &NameSet,
    outside: &Bound,
    piece: &Piece,
) -> Result<Option<Text>, AllocError>
    requires none { (name : List ℕ) → names_in none.now name ≡ false }
    ensures { IfOk result (IsFirstUnboundOf (definite_by safe.now) (names_in globals.now) (marked_in outside.now) piece.now) }
{
    match piece {
        Piece::Uses(occurrences) => unbound_uses(alloc, none, outside, occurrences.as_slice()),
        Piece::Plain(mention) => unbound_plain(alloc, none, outside, mention),
        Piece::Value(side, inside, mentioned) => {
            let other = other_side(alloc, safe, globals, inside, mentioned)?;
            unbound_guard(alloc, none, outside, side, &other)
        }
        Piece::Part(occurrences, condition) => {
            unbound_within(
                alloc,
                safe,
                globals,
                outside,
                occurrences.as_slice(),
                condition.as_slice(),
            )
        }
    }
}

fn first_of_both(one: Option<Text>, other: Option<Text>) -> Option<Text>
    ensures { result ≡ first_or one other }
{
    match one {
        Some(name) => Some(name),
        None => other,
    }
}

/// The first occurrence in these pieces that is not bound. All are gone through.
fn unbound_among(
    alloc: Global,
    safe: &Safe,
    none: &NameSet,
    globals: &NameSet,
    outside: &Bound,
    pieces: &[Piece],
) -> Result<Option<Text>, AllocError>
    requires none { (name : List ℕ) → names_in none.now name ≡ false }
    ensures { IfOk result (IsFirstAmong (definite_by safe.now) (names_in globals.now) (marked_in outside.now) pieces.now) }
{
    let mut first = None;
    for piece in pieces {
        let here = unbound_of(alloc, safe, none, globals, outside, piece)?;
        first = first_of_both(first, here);
    }
    Ok(first)
}

/// The first variable of a rule or an element that is not bound, by its name; `_` for one without a name. `safe` tells the
/// definite predicates.
pub(crate) fn first_unbound(
    alloc: Global,
    safe: &Safe,
    pieces: &[Piece],
) -> Result<Option<Text>, AllocError>
    ensures { IfOk result (IsFirstUnbound (definite_by safe.now) pieces.now) }
{
    let globals = globals_of(alloc, pieces)?;
    let outside = bound_outside(alloc, safe, &globals, pieces)?;
    let none = NameSet::new(alloc);
    unbound_among(alloc, safe, &none, &globals, &outside, pieces)
}
