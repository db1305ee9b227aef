// The canonical text of preference statements.
ghost use Rattle.std.specs.Prelude.{◌≡◌, ◌++◌, map, OnOk, string_bytes};
ghost use Rattle.ap_syntax.specs.Pieces.{parted, text_of};
ghost use Rattle.ap_syntax.specs.Separators.{between};
ghost use Rattle.ap_syntax.specs.CanonicalTerms.{at_least};
ghost use Rattle.ap_syntax.specs.CanonicalPreferences.{element_pieces, formula_pieces, given_pieces, kind_pieces, preference_pieces, ranked_pieces, target_pieces};
ghost use Rattle.ap_syntax.specs.CanonicalFormulas.{formula_written};

use crate::preferences::{Element, Formula, Preference, Ranked, Target};
use crate::printed_lists::{Canonical, Separator, push_braced, push_parted};
use crate::printed_rules::push_condition;
use crate::printed_terms::{push_atom, push_terms};
use crate::text::Text;
use std::alloc::AllocError;

// How closely a formula binds: a formula of a lower level stands in parentheses where one of a higher level is wanted.
const DISJUNCTION: u8 = 0;

const CONJUNCTION: u8 = 1;

const NEGATION: u8 = 2;

const ATOM: u8 = 3;

/// The level of a formula.
fn formula_level(formula: &Formula) -> u8
    ensures { result ≡ (formula_written formula.now).level }
{
    match formula {
        Formula::Or(_) => DISJUNCTION,
        Formula::And(_) => CONJUNCTION,
        Formula::Not(_) => NEGATION,
        Formula::Atom(_) => ATOM,
    }
}

/// Appends a formula.
#[cycle(printing)]
fn push_formula(formula: &Formula, out: &mut String) -> Result<(), AllocError>
    ensures { OnOk result (string_bytes out.new ≡ string_bytes out.old ++ text_of (formula_pieces formula.now)) }
{
    match formula {
        Formula::Atom(atom) => push_atom(atom, out),
        Formula::Not(part) => {
            out.push_str("not ")?;
            push_part(ATOM, part.get(), out)
        }
        Formula::And(parts) => push_parts(NEGATION, Separator::And, parts.as_slice(), out),
        Formula::Or(parts) => push_parts(CONJUNCTION, Separator::Or, parts.as_slice(), out),
    }
}

/// Appends a formula where one of this level or above may stand: anything looser in parentheses.
#[cycle(printing)]
fn push_part(level: u8, formula: &Formula, out: &mut String) -> Result<(), AllocError>
    ensures { OnOk result (string_bytes out.new ≡ string_bytes out.old
        ++ text_of (at_least level (formula_written formula.now))) }
{
    if level <= formula_level(formula) {
        return push_formula(formula, out);
    }
    out.push_str("(")?;
    push_formula(formula, out)?;
    out.push_str(")")
}

/// Appends formulas, each where one of this level or above may stand, with the separator between them.
#[cycle(printing)]
fn push_parts(
    level: u8,
    separator: Separator,
    formulas: &[Formula],
    out: &mut String,
) -> Result<(), AllocError>
    ensures { OnOk result (string_bytes out.new ≡ string_bytes out.old
        ++ text_of (parted (between separator) (map (at_least level) (map formula_written formulas.now)))) }
{
    let mut front = "";
    for formula in formulas {
        out.push_str(front)?;
        push_part(level, formula, out)?;
        front = separator.text();
    }
    Ok(())
}

/// Appends a target.
fn push_target(target: &Target, out: &mut String) -> Result<(), AllocError>
    ensures { OnOk result (string_bytes out.new ≡ string_bytes out.old ++ text_of (target_pieces target.now)) }
{
    match target {
        Target::For(formula) => push_formula(formula, out),
        Target::Name(name) => {
            out.push_str("**")?;
            out.push_str(name.as_str())
        }
    }
}

impl Canonical for Ranked {
    ghost pieces = { ranked_pieces };

    fn push(&self, out: &mut String) -> Result<(), AllocError> {
        if self.weights.is_empty() {
            return push_target(&self.target, out);
        }
        push_terms(self.weights.as_slice(), out)?;
        out.push_str(" :: ")?;
        push_target(&self.target, out)
    }
}

/// Appends what stands behind `||`, with it.
fn push_given(given: &Option<Ranked>, out: &mut String) -> Result<(), AllocError>
    ensures { OnOk result (string_bytes out.new ≡ string_bytes out.old ++ text_of (given_pieces given.now)) }
{
    match given {
        None => Ok(()),
        Some(ranked) => {
            out.push_str(" || ")?;
            ranked.push(out)
        }
    }
}

impl Canonical for Element {
    ghost pieces = { element_pieces };

    fn push(&self, out: &mut String) -> Result<(), AllocError> {
        push_parted(Separator::Better, self.ranks.as_slice(), out)?;
        push_given(&self.given, out)?;
        push_condition(self.domain.as_slice(), out)
    }
}

/// Appends a type, which is kept as its text.
pub(crate) fn push_kind(kind: &Text, out: &mut String) -> Result<(), AllocError>
    ensures { OnOk result (string_bytes out.new ≡ string_bytes out.old ++ text_of (kind_pieces kind.now)) }
{
    out.push_str(kind.as_str())
}

/// Appends a preference statement.
pub(crate) fn push_preference(preference: &Preference, out: &mut String) -> Result<(), AllocError>
    ensures { OnOk result (string_bytes out.new ≡ string_bytes out.old ++ text_of (preference_pieces preference.now)) }
{
    out.push_str("#preference(")?;
    out.push_str(preference.name.as_str())?;
    out.push_str(", ")?;
    push_kind(&preference.kind, out)?;
    out.push_str(")")?;
    push_braced(preference.elements.as_slice(), out)?;
    out.push_str(".")
}
