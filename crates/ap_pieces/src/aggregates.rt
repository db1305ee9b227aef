// What stands between the braces of an aggregate: its variables, and the predicates that it mentions.
ghost use Rattle.std.specs.Prelude.{◌≡◌, ◌++◌, flat_map, OnOk, IfOk};
ghost use Rattle.ap_pieces.specs.Pieces.{literal_occurrences, literal_signatures, signature_of, tuple_occurrences, tuple_signatures};

use crate::pieces::{Signature, push_literal};
use crate::variables::{Occurrence, push_all};
use ap_syntax::{AggElement, Atom, Literal};
use sqlite_items::Items;
use std::alloc::{AllocError, Global};

// ---- variables

fn push_literals(
    alloc: Global,
    found: &mut Items<Occurrence>,
    literals: &[Literal],
) -> Result<(), AllocError>
    ensures { OnOk result (found.new ≡ found.old ++ flat_map literal_occurrences literals.now) }
{
    for literal in literals {
        push_literal(alloc, found, literal)?;
    }
    Ok(())
}

fn push_tuple(
    alloc: Global,
    found: &mut Items<Occurrence>,
    element: &AggElement,
) -> Result<(), AllocError>
    ensures { OnOk result (found.new ≡ found.old ++ tuple_occurrences element.now) }
{
    push_all(alloc, found, element.terms.as_slice())?;
    push_literals(alloc, found, element.condition.as_slice())
}

/// The occurrences between the braces.
pub(crate) fn occurrences_between(
    alloc: Global,
    elements: &[AggElement],
) -> Result<Items<Occurrence>, AllocError>
    ensures { IfOk result (λ os. os ≡ flat_map tuple_occurrences elements.now) }
{
    let mut found = Items::new(alloc);
    for element in elements {
        push_tuple(alloc, &mut found, element)?;
    }
    Ok(found)
}

// ---- predicates

fn read_signature(alloc: Global, atom: &Atom) -> Result<Signature, AllocError>
    ensures { IfOk result (λ s. s ≡ signature_of atom.now) }
{
    Ok(Signature {
        name: atom.name.copy(alloc)?,
        arity: atom.terms.len(),
    })
}

fn push_signature(
    alloc: Global,
    found: &mut Items<Signature>,
    literal: &Literal,
) -> Result<(), AllocError>
    ensures { OnOk result (found.new ≡ found.old ++ literal_signatures literal.now) }
{
    match literal {
        Literal::Pos(atom) => found.push(read_signature(alloc, atom)?),
        Literal::Not(atom) => found.push(read_signature(alloc, atom)?),
        Literal::Compare(..) => Ok(()),
    }
}

fn push_signatures(
    alloc: Global,
    found: &mut Items<Signature>,
    literals: &[Literal],
) -> Result<(), AllocError>
    ensures { OnOk result (found.new ≡ found.old ++ flat_map literal_signatures literals.now) }
{
    for literal in literals {
        push_signature(alloc, found, literal)?;
    }
    Ok(())
}

/// The predicates that are mentioned between the braces.
pub(crate) fn signatures_in(
    alloc: Global,
    elements: &[AggElement],
) -> Result<Items<Signature>, AllocError>
    ensures { IfOk result (λ found. found ≡ flat_map tuple_signatures elements.now) }
{
    let mut found = Items::new(alloc);
    for element in elements {
        push_signatures(alloc, &mut found, element.condition.as_slice())?;
    }
    Ok(found)
}
