// What an element looks like.
ghost use Rattle.std.specs.Prelude.{◌≡◌, ◌↔◌, IsTrue};
ghost use Rattle.pref_shapes.specs.Forms.{are_all_formulas, are_formulas as are_some_formulas, AreOpposite, given_formula, has_weight, HasForm, HasFormOf, IsSwitch, is_formula as stands_for_formula, is_general, is_only, is_plain, wants};

use crate::intervals::in_element;
use ap_syntax::{Element, Formula, Ranked, Target};
use pref_kinds::BuiltIn;

/// What a type wants of the only rank of an element.
#[derive(Clone, Copy, Debug, PartialEq, Eq)]
pub enum Wanted {
    /// A formula.
    Formula,
    /// A formula with at least one weight.
    WeightedFormula,
    /// A name.
    Name,
    /// A name with at least one weight.
    WeightedName,
    /// A name without weights.
    PlainName,
}

fn is_formula(target: &Target) -> bool
    ensures { result ≡ stands_for_formula target.now }
{
    matches!(target, Target::For(_))
}

fn has_weight(ranked: &Ranked) -> bool
    ensures { result ≡ has_weight ranked.now }
{
    !ranked.weights.is_empty()
}

fn wants(wanted: Wanted, ranked: &Ranked) -> bool
    ensures { result ≡ wants wanted ranked.now }
{
    let formula = is_formula(&ranked.target);
    match wanted {
        Wanted::Formula => formula,
        Wanted::WeightedFormula => formula && has_weight(ranked),
        Wanted::Name => !formula,
        Wanted::WeightedName => !formula && has_weight(ranked),
        Wanted::PlainName => !formula && !has_weight(ranked),
    }
}

/// Whether an element is one such rank, and has no `||`.
fn is_only(wanted: Wanted, element: &Element) -> bool
    ensures { result ≡ is_only wanted element.now }
{
    if element.given.is_some() {
        return false;
    }
    let [ranked] = element.ranks.as_slice() else {
        return false;
    };
    wants(wanted, ranked)
}

fn are_all_formulas(ranks: &[Ranked]) -> bool
    ensures { result ≡ are_all_formulas ranks.now }
{
    ranks.iter().all(|ranked| wants(Wanted::Formula, ranked))
}

fn are_formulas(element: &Element) -> bool
    ensures { result ≡ are_some_formulas element.now.ranks }
{
    !element.ranks.is_empty() && are_all_formulas(element.ranks.as_slice())
}

/// Whether the one stands for an atom, and the other for its negation.
fn are_opposite(one: &Ranked, other: &Ranked) -> bool
    ensures { IsTrue result ↔ AreOpposite one.now other.now }
{
    let Target::For(Formula::Atom(atom)) = &one.target else {
        return false;
    };
    let Target::For(Formula::Not(part)) = &other.target else {
        return false;
    };
    let Formula::Atom(negated) = part.get() else {
        return false;
    };
    atom.equals(negated)
}

fn is_switch(ranks: &[Ranked]) -> bool
    ensures { IsTrue result ↔ IsSwitch ranks.now }
{
    let [one, other] = ranks else {
        return false;
    };
    are_opposite(one, other) || are_opposite(other, one)
}

/// Whether an element has the form that the table asks of a type.
fn has_form(kind: BuiltIn, element: &Element) -> bool
    ensures { IsTrue result ↔ HasForm kind element.now }
{
    match kind {
        BuiltIn::Subset | BuiltIn::Superset | BuiltIn::LessCardinality | BuiltIn::MoreCardinality =>
            is_only(Wanted::Formula, element),
        BuiltIn::LessWeight | BuiltIn::MoreWeight => is_only(Wanted::WeightedFormula, element),
        BuiltIn::Aso => are_formulas(element),
        BuiltIn::Poset => are_formulas(element) && element.given.is_none(),
        BuiltIn::Cp => is_switch(element.ranks.as_slice()),
        BuiltIn::Pareto => is_only(Wanted::Name, element),
        BuiltIn::Lexico => is_only(Wanted::WeightedName, element),
        BuiltIn::And | BuiltIn::Neg => is_only(Wanted::PlainName, element),
    }
}

/// The same for a type that may be one that users write, which asks for no form of its own.
pub(crate) fn has_form_of(kind: Option<BuiltIn>, element: &Element) -> bool
    ensures { IsTrue result ↔ HasFormOf kind element.now }
{
    match kind {
        Some(kind) => has_form(kind, element),
        None => true,
    }
}

fn is_formula_if_there(given: &Option<Ranked>) -> bool
    ensures { result ≡ given_formula given.now }
{
    match given {
        Some(ranked) => wants(Wanted::Formula, ranked),
        None => true,
    }
}

fn is_general(element: &Element) -> bool
    ensures { result ≡ is_general element.now }
{
    (are_all_formulas(element.ranks.as_slice()) && is_formula_if_there(&element.given))
        || (is_only(Wanted::Name, element) && element.domain.is_empty())
}

/// Whether an element has the general shape: names stand alone, and no interval stands outside the `:` part.
pub(crate) fn is_plain(element: &Element) -> bool
    ensures { result ≡ is_plain element.now }
{
    is_general(element) && !in_element(element)
}
