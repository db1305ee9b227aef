// Intervals outside the `:` parts of elements.
ghost use Rattle.std.specs.Prelude.{◌≡◌};
ghost use Rattle.std.specs.List.{list_any};
ghost use Rattle.pref_shapes.specs.Intervals.{element_has_interval, formula_has_interval, given_has_interval, has_interval as term_has_interval, ranked_has_interval, target_has_interval};

use ap_syntax::{Element, Formula, Ranked, Target, Term};

/// Whether an interval stands in a term. A chain of operators is as deep as it is long, so this is a loop along its first
/// operands.
#[cycle(terms)]
#[tactic(auto, using(crate::proofs::IntervalLemmas::of_int, crate::proofs::IntervalLemmas::of_str, crate::proofs::IntervalLemmas::of_const, crate::proofs::IntervalLemmas::of_var, crate::proofs::IntervalLemmas::of_any, crate::proofs::IntervalLemmas::of_fun, crate::proofs::IntervalLemmas::of_tuple, crate::proofs::IntervalLemmas::of_minus, crate::proofs::IntervalLemmas::of_sum, crate::proofs::IntervalLemmas::of_product, crate::proofs::IntervalLemmas::of_range))]
fn has_interval(term: &Term) -> bool
    ensures { result ≡ term_has_interval term.now }
{
    let mut first = term;
    loop {
        match first {
            Term::Int(_) | Term::Str(_) | Term::Const(_) | Term::Var(_) | Term::Any => return false,
            Term::Fun(_, terms) => return any_has_interval(terms.get().as_slice()),
            Term::Tuple(terms) => return any_has_interval(terms.as_slice()),
            Term::Minus(part) => first = part.get(),
            Term::Sum(left, _, right) => {
                if has_interval(right.get()) {
                    return true;
                }
                first = left.get();
            }
            Term::Product(left, _, right) => {
                if has_interval(right.get()) {
                    return true;
                }
                first = left.get();
            }
            Term::Range(..) => return true,
        }
    }
}

#[cycle(terms)]
fn any_has_interval(terms: &[Term]) -> bool
    ensures { result ≡ list_any term_has_interval terms.now }
{
    for term in terms {
        if has_interval(term) {
            return true;
        }
    }
    false
}

#[cycle(formulas)]
#[tactic(auto, using(crate::proofs::IntervalLemmas::of_atom, crate::proofs::IntervalLemmas::of_not, crate::proofs::IntervalLemmas::of_and, crate::proofs::IntervalLemmas::of_or))]
fn in_formula(formula: &Formula) -> bool
    ensures { result ≡ formula_has_interval formula.now }
{
    match formula {
        Formula::Atom(atom) => any_has_interval(atom.terms.as_slice()),
        Formula::Not(part) => in_formula(part.get()),
        Formula::And(parts) => in_formulas(parts.as_slice()),
        Formula::Or(parts) => in_formulas(parts.as_slice()),
    }
}

#[cycle(formulas)]
fn in_formulas(formulas: &[Formula]) -> bool
    ensures { result ≡ list_any formula_has_interval formulas.now }
{
    for formula in formulas {
        if in_formula(formula) {
            return true;
        }
    }
    false
}

fn in_target(target: &Target) -> bool
    ensures { result ≡ target_has_interval target.now }
{
    match target {
        Target::For(formula) => in_formula(formula),
        Target::Name(_) => false,
    }
}

fn in_ranked(ranked: &Ranked) -> bool
    ensures { result ≡ ranked_has_interval ranked.now }
{
    any_has_interval(ranked.weights.as_slice()) || in_target(&ranked.target)
}

fn in_ranks(ranks: &[Ranked]) -> bool
    ensures { result ≡ list_any ranked_has_interval ranks.now }
{
    ranks.iter().any(|ranked| in_ranked(ranked))
}

fn in_given(given: &Option<Ranked>) -> bool
    ensures { result ≡ given_has_interval given.now }
{
    match given {
        Some(ranked) => in_ranked(ranked),
        None => false,
    }
}

/// Whether an interval stands in an element outside its `:` part.
pub(crate) fn in_element(element: &Element) -> bool
    ensures { result ≡ element_has_interval element.now }
{
    in_ranks(element.ranks.as_slice()) || in_given(&element.given)
}
