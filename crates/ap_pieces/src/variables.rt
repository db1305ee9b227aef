// The variables of terms.
ghost use Rattle.std.specs.Prelude.{◌≡◌, ◌++◌, ◌≤◌, All, false, map, reverse, OnOk, IfOk};
ghost use Rattle.ap_syntax.specs.declared.terms.Term.{size-Term};
ghost use Rattle.ap_pieces.specs.Variables.{occurrences, occurrences_of};
ghost use Rattle.ap_pieces.specs.Placed.{placed};

use ap_syntax::{Term, Text};
use sqlite_items::Items;
use std::alloc::{AllocError, Global};

/// A variable where it stands in a text.
#[derive(Debug, Drop)]
pub struct Occurrence {
    /// Its name. `None` for `_`.
    pub name: Option<Text>,
    /// Whether it stands under no operator and under no interval, at most inside compounds and tuples.
    pub is_argument: bool,
}

/// The terms at the ends of a chain of operators, the last one first: the first operand and those on the right of an operator. A chain is as
/// deep as it is long, so this is a loop.
fn operands<'a>(alloc: Global, term: &'a Term) -> Result<Vec<&'a Term>, AllocError>
    ensures occurrences { IfOk result (λ ts. placed false (occurrences term.now) ≡ placed false (occurrences_of (reverse (map (λ t. t.now) ts.items)))) }
    ensures inside { IfOk result (λ ts. All (λ t. size-Term t.now ≤ size-Term term.now) ts.items) }
{
    let mut found = Vec::new(alloc);
    let mut first = term;
    loop {
        match first {
            Term::Minus(part) => first = part.get(),
            Term::Sum(left, _, right) => {
                found.push(right.get())?;
                first = left.get();
            }
            Term::Product(left, _, right) => {
                found.push(right.get())?;
                first = left.get();
            }
            Term::Range(low, high) => {
                found.push(high.get())?;
                first = low.get();
            }
            _ => {
                found.push(first)?;
                return Ok(found);
            }
        }
    }
}

/// Adds the occurrences in an operand, none of which is an argument.
#[cycle(occurrences)]
fn push_operand(alloc: Global, found: &mut Items<Occurrence>, term: &Term) -> Result<(), AllocError>
    ensures { OnOk result (found.new ≡ found.old ++ placed false (occurrences term.now)) }
{
    let mut parts = operands(alloc, term)?;
    while let Some(part) = parts.pop() {
        push_term(alloc, found, part, false)?;
    }
    Ok(())
}

/// Adds the occurrences in the term. They are arguments only if the term stands where an argument may.
#[cycle(occurrences)]
#[tactic(auto, using(crate::proofs::TermLemmas::of_fun, crate::proofs::TermLemmas::of_tuple, crate::proofs::TermLemmas::of_minus, crate::proofs::TermLemmas::of_sum, crate::proofs::TermLemmas::of_product, crate::proofs::TermLemmas::of_range, crate::proofs::ChainLemmas::part_of_minus, crate::proofs::ChainLemmas::left_of_sum, crate::proofs::ChainLemmas::right_of_sum, crate::proofs::ChainLemmas::left_of_product, crate::proofs::ChainLemmas::right_of_product, crate::proofs::ChainLemmas::low_of_range, crate::proofs::ChainLemmas::high_of_range))]
fn push_term(
    alloc: Global,
    found: &mut Items<Occurrence>,
    term: &Term,
    free: bool,
) -> Result<(), AllocError>
    ensures { OnOk result (found.new ≡ found.old ++ placed free (occurrences term.now)) }
{
    match term {
        Term::Int(_) => Ok(()),
        Term::Str(_) => Ok(()),
        Term::Const(_) => Ok(()),
        Term::Var(name) => {
            let name = Some(name.copy(alloc)?);
            found.push(Occurrence {
                name,
                is_argument: free,
            })
        }
        Term::Any => found.push(Occurrence {
            name: None,
            is_argument: free,
        }),
        Term::Fun(_, terms) => push_terms(alloc, found, terms.get().as_slice(), free),
        Term::Tuple(terms) => push_terms(alloc, found, terms.as_slice(), free),
        Term::Minus(term) => push_operand(alloc, found, term.get()),
        Term::Sum(left, _, right) => {
            push_operand(alloc, found, left.get())?;
            push_operand(alloc, found, right.get())
        }
        Term::Product(left, _, right) => {
            push_operand(alloc, found, left.get())?;
            push_operand(alloc, found, right.get())
        }
        Term::Range(low, high) => {
            push_operand(alloc, found, low.get())?;
            push_operand(alloc, found, high.get())
        }
    }
}

#[cycle(occurrences)]
fn push_terms(
    alloc: Global,
    found: &mut Items<Occurrence>,
    terms: &[Term],
    free: bool,
) -> Result<(), AllocError>
    ensures { OnOk result (found.new ≡ found.old ++ placed free (occurrences_of terms.now)) }
{
    for term in terms {
        push_term(alloc, found, term, free)?;
    }
    Ok(())
}

/// Adds the occurrences in these terms, in the order of the text.
#[tactic(auto, using(crate::proofs::TermLemmas::placed_free))]
pub(crate) fn push_all(
    alloc: Global,
    found: &mut Items<Occurrence>,
    terms: &[Term],
) -> Result<(), AllocError>
    ensures { OnOk result (found.new ≡ found.old ++ occurrences_of terms.now) }
{
    push_terms(alloc, found, terms, true)
}

/// The occurrences in these terms.
pub(crate) fn all_occurrences(
    alloc: Global,
    terms: &[Term],
) -> Result<Items<Occurrence>, AllocError>
    ensures { IfOk result (λ os. os ≡ occurrences_of terms.now) }
{
    let mut found = Items::new(alloc);
    push_all(alloc, &mut found, terms)?;
    Ok(found)
}

/// Adds the occurrences in one term.
#[tactic(auto, using(crate::proofs::TermLemmas::placed_free))]
pub(crate) fn push_one(
    alloc: Global,
    found: &mut Items<Occurrence>,
    term: &Term,
) -> Result<(), AllocError>
    ensures { OnOk result (found.new ≡ found.old ++ occurrences term.now) }
{
    push_term(alloc, found, term, true)
}

/// The occurrences in one term.
pub(crate) fn term_occurrences(alloc: Global, term: &Term) -> Result<Items<Occurrence>, AllocError>
    ensures { IfOk result (λ os. os ≡ occurrences term.now) }
{
    let mut found = Items::new(alloc);
    push_one(alloc, &mut found, term)?;
    Ok(found)
}
