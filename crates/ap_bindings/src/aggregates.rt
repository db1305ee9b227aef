// What an aggregate gives to its guards.
ghost use Rattle.std.specs.Prelude.{◌≡◌, filter, IfOk};
ghost use Rattle.std.specs.List.{list_all};
ghost use Rattle.ap_pieces.specs.Bound.{is_among, aggregate_side};
ghost use Rattle.ap_bindings.specs.Searches.{names_in};
ghost use Rattle.ap_bindings.specs.Unsafe.{definite_by};

use crate::names::NameSet;
use ap_pieces::{Occurrence, Side, Signature};
use pred_graph::{Pred, Safe};
use sqlite_items::Items;
use std::alloc::{AllocError, Global};

/// Whether the predicate is definite. It fails for want of memory; a predicate of 2^32 arguments or more answers that too.
fn is_definite(alloc: Global, safe: &Safe, signature: &Signature) -> Result<bool, AllocError>
    ensures { IfOk result (λ b. b ≡ definite_by safe.now signature.now) }
{
    let Ok(arity) = u32::try_from(signature.arity) else {
        return Err(AllocError);
    };
    let name = signature.name.copy(alloc)?;
    Ok(safe.is_definite(&Pred { name, arity }))
}

fn are_definite(alloc: Global, safe: &Safe, signatures: &[Signature]) -> Result<bool, AllocError>
    ensures { IfOk result (λ b. b ≡ list_all (definite_by safe.now) signatures.now) }
{
    for signature in signatures {
        if !is_definite(alloc, safe, signature)? {
            return Ok(false);
        }
    }
    Ok(true)
}

fn is_global(globals: &NameSet, occurrence: &Occurrence) -> bool
    ensures { result ≡ is_among (names_in globals.now) occurrence.now }
{
    match &occurrence.name {
        Some(name) => globals.contains(name),
        None => false,
    }
}

fn copy_of(alloc: Global, occurrence: &Occurrence) -> Result<Occurrence, AllocError>
    ensures { IfOk result (λ o. o ≡ occurrence.now) }
{
    let is_argument = occurrence.is_argument;
    match &occurrence.name {
        Some(name) => {
            let name = Some(name.copy(alloc)?);
            Ok(Occurrence { name, is_argument })
        }
        None => Ok(Occurrence {
            name: None,
            is_argument,
        }),
    }
}

/// The occurrences of global variables.
fn global_ones(
    alloc: Global,
    globals: &NameSet,
    occurrences: &[Occurrence],
) -> Result<Items<Occurrence>, AllocError>
    ensures { IfOk result (λ os. os ≡ filter (is_among (names_in globals.now)) occurrences.now) }
{
    let mut found = Items::new(alloc);
    for occurrence in occurrences {
        if is_global(globals, occurrence) {
            found.push(copy_of(alloc, occurrence)?)?;
        }
    }
    Ok(found)
}

/// The aggregate as the other side of `=` to its guard. It has these occurrences and predicates between the braces.
pub(crate) fn other_side(
    alloc: Global,
    safe: &Safe,
    globals: &NameSet,
    inside: &Items<Occurrence>,
    mentioned: &Items<Signature>,
) -> Result<Side, AllocError>
    ensures { IfOk result (λ side. side ≡ aggregate_side (definite_by safe.now) (names_in globals.now) inside.now mentioned.now) }
{
    if are_definite(alloc, safe, mentioned.as_slice())? {
        Ok(Side::Compound(global_ones(alloc, globals, inside.as_slice())?))
    } else {
        Ok(Side::Any)
    }
}
