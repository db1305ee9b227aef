// What elements of preference statements say of variables.
ghost use Rattle.std.specs.Prelude.{◌≡◌, ◌++◌, flat_map, OnOk, IfOk};
ghost use Rattle.ap_pieces.specs.Pieces.{formula_occurrences, target_occurrences, ranked_occurrences, given_occurrences, element_piece};

use crate::pieces::{Piece, read_mentions};
use crate::variables::{Occurrence, push_all};
use ap_syntax::{Element, Formula, Ranked, Target};
use sqlite_items::Items;
use std::alloc::{AllocError, Global};

#[cycle(formulas)]
#[tactic(auto, using(crate::proofs::FormulaLemmas::of_atom, crate::proofs::FormulaLemmas::of_not, crate::proofs::FormulaLemmas::of_and, crate::proofs::FormulaLemmas::of_or))]
fn push_formula(
    alloc: Global,
    found: &mut Items<Occurrence>,
    formula: &Formula,
) -> Result<(), AllocError>
    ensures { OnOk result (found.new ≡ found.old ++ formula_occurrences formula.now) }
{
    match formula {
        Formula::Atom(atom) => push_all(alloc, found, atom.terms.as_slice()),
        Formula::Not(inner) => push_formula(alloc, found, inner.get()),
        Formula::And(members) => push_formulas(alloc, found, members.as_slice()),
        Formula::Or(members) => push_formulas(alloc, found, members.as_slice()),
    }
}

#[cycle(formulas)]
fn push_formulas(
    alloc: Global,
    found: &mut Items<Occurrence>,
    formulas: &[Formula],
) -> Result<(), AllocError>
    ensures { OnOk result (found.new ≡ found.old ++ flat_map formula_occurrences formulas.now) }
{
    for formula in formulas {
        push_formula(alloc, found, formula)?;
    }
    Ok(())
}

fn push_target(
    alloc: Global,
    found: &mut Items<Occurrence>,
    target: &Target,
) -> Result<(), AllocError>
    ensures { OnOk result (found.new ≡ found.old ++ target_occurrences target.now) }
{
    match target {
        Target::For(formula) => push_formula(alloc, found, formula),
        Target::Name(_) => Ok(()),
    }
}

fn push_ranked(
    alloc: Global,
    found: &mut Items<Occurrence>,
    ranked: &Ranked,
) -> Result<(), AllocError>
    ensures { OnOk result (found.new ≡ found.old ++ ranked_occurrences ranked.now) }
{
    push_all(alloc, found, ranked.weights.as_slice())?;
    push_target(alloc, found, &ranked.target)
}

fn push_given(
    alloc: Global,
    found: &mut Items<Occurrence>,
    given: &Option<Ranked>,
) -> Result<(), AllocError>
    ensures { OnOk result (found.new ≡ found.old ++ given_occurrences given.now) }
{
    match given {
        Some(ranked) => push_ranked(alloc, found, ranked),
        None => Ok(()),
    }
}

fn rank_occurrences(alloc: Global, ranks: &[Ranked]) -> Result<Items<Occurrence>, AllocError>
    ensures { IfOk result (λ os. os ≡ flat_map ranked_occurrences ranks.now) }
{
    let mut found = Items::new(alloc);
    for ranked in ranks {
        push_ranked(alloc, &mut found, ranked)?;
    }
    Ok(found)
}

/// The piece that an element is.
pub fn piece_of(alloc: Global, element: &Element) -> Result<Piece, AllocError>
    ensures { IfOk result (λ p. p ≡ element_piece element.now) }
{
    let mut found = rank_occurrences(alloc, element.ranks.as_slice())?;
    push_given(alloc, &mut found, &element.given)?;
    Ok(Piece::Part(found, read_mentions(alloc, element.domain.as_slice())?))
}
