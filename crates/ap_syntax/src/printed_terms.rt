// The canonical text of terms, atoms and literals.
ghost use Rattle.std.specs.Prelude.{◌≡◌, ◌++◌, map, OnOk, string_bytes};
ghost use Rattle.std.specs.Char.{encode_utf8};
ghost use Rattle.std.specs.List.{flat_map};
ghost use Rattle.ap_syntax.specs.Pieces.{in_parentheses, spaced, text_of};
ghost use Rattle.ap_syntax.specs.CanonicalTerms.{applied, at_least, atom_pieces, escaped, literal_pieces, literals_pieces, members, product_sign, quoted, rel_sign, sum_sign, term_pieces, terms_pieces, written};

use crate::printed_lists::{Canonical, Separator, push_parted};
use crate::terms::{Atom, Literal, ProductOp, Rel, SumOp, Term};
use crate::text::Text;
use itoa::Buffer;
use sqlite_items::Boxed;
use std::alloc::AllocError;

// How closely a term binds: a term of a lower level stands in parentheses where one of a higher level is wanted.
const INTERVAL: u8 = 0;

const SUM: u8 = 1;

const PRODUCT: u8 = 2;

const NEGATION: u8 = 3;

const PRIMARY: u8 = 4;

impl Rel {
    /// Its sign.
    pub(crate) fn sign(self) -> &'static str
        ensures { result.now ≡ rel_sign self }
    {
        match self {
            Rel::Eq => "=",
            Rel::Ne => "!=",
            Rel::Lt => "<",
            Rel::Le => "<=",
            Rel::Gt => ">",
            Rel::Ge => ">=",
        }
    }
}

impl SumOp {
    /// Its sign.
    pub(crate) fn sign(self) -> &'static str
        ensures { result.now ≡ sum_sign self }
    {
        match self {
            SumOp::Plus => "+",
            SumOp::Less => "-",
        }
    }
}

impl ProductOp {
    /// Its sign.
    pub(crate) fn sign(self) -> &'static str
        ensures { result.now ≡ product_sign self }
    {
        match self {
            ProductOp::Times => "*",
            ProductOp::Over => "/",
            ProductOp::Rest => "\\",
        }
    }
}

/// The level of a term.
fn term_level(term: &Term) -> u8
    ensures { result ≡ (written term.now).level }
{
    match term {
        Term::Range(_, _) => INTERVAL,
        Term::Sum(_, _, _) => SUM,
        Term::Product(_, _, _) => PRODUCT,
        Term::Minus(_) => NEGATION,
        _ => PRIMARY,
    }
}

/// Appends a sign with a blank on both sides.
pub(crate) fn push_spaced(sign: &str, out: &mut String) -> Result<(), AllocError>
    ensures { OnOk result (string_bytes out.new ≡ string_bytes out.old ++ text_of (spaced sign.now)) }
{
    out.push_str(" ")?;
    out.push_str(sign)?;
    out.push_str(" ")
}

/// Appends a character of a string.
fn push_escaped(c: char, out: &mut String) -> Result<(), AllocError>
    ensures { OnOk result (string_bytes out.new ≡ string_bytes out.old ++ flat_map escaped (encode_utf8 c)) }
{
    match c {
        '\n' => out.push_str("\\n"),
        '\\' => out.push_str("\\\\"),
        '"' => out.push_str("\\\""),
        _ => out.push(c),
    }
}

/// Appends a string between quotes.
fn push_quoted(string: &str, out: &mut String) -> Result<(), AllocError>
    ensures { OnOk result (string_bytes out.new ≡ string_bytes out.old ++ quoted string.now) }
{
    out.push_str("\"")?;
    for c in string.chars() {
        push_escaped(c, out)?;
    }
    out.push_str("\"")
}

/// Appends a term.
#[cycle(printing)]
#[tactic(auto, using(crate::proofs::Written::term_fun, crate::proofs::Written::term_tuple, crate::proofs::Written::text_minus, crate::proofs::Written::text_sum, crate::proofs::Written::text_product, crate::proofs::Written::text_range))]
pub(crate) fn push_term(term: &Term, out: &mut String) -> Result<(), AllocError>
    ensures { OnOk result (string_bytes out.new ≡ string_bytes out.old ++ text_of (term_pieces term.now)) }
{
    match term {
        Term::Int(number) => out.push_str(Buffer::new().format(*number)),
        Term::Str(text) => push_quoted(text.as_str(), out),
        Term::Const(name) => out.push_str(name.as_str()),
        Term::Var(name) => out.push_str(name.as_str()),
        Term::Any => out.push_str("_"),
        Term::Fun(name, terms) => push_applied(name, terms.get().as_slice(), out),
        Term::Tuple(terms) => push_tuple(terms.as_slice(), out),
        Term::Minus(part) => {
            out.push_str("-")?;
            push_operand(PRIMARY, part, out)
        }
        Term::Sum(left, op, right) => {
            push_operand(SUM, left, out)?;
            push_spaced(op.sign(), out)?;
            push_operand(PRODUCT, right, out)
        }
        Term::Product(left, op, right) => {
            push_operand(PRODUCT, left, out)?;
            push_spaced(op.sign(), out)?;
            push_operand(NEGATION, right, out)
        }
        Term::Range(low, high) => {
            push_operand(SUM, low, out)?;
            out.push_str("..")?;
            push_operand(SUM, high, out)
        }
    }
}

/// Appends a term where one of this level or above may stand: anything looser in parentheses.
#[cycle(printing)]
fn push_operand(level: u8, term: &Boxed<Term>, out: &mut String) -> Result<(), AllocError>
    ensures { OnOk result (string_bytes out.new ≡ string_bytes out.old ++ text_of (at_least level (written term.now))) }
{
    if level <= term_level(term.get()) {
        return push_term(term.get(), out);
    }
    out.push_str("(")?;
    push_term(term.get(), out)?;
    out.push_str(")")
}

/// Appends a name with its arguments.
#[cycle(printing)]
fn push_applied(name: &Text, terms: &[Term], out: &mut String) -> Result<(), AllocError>
    ensures { OnOk result (string_bytes out.new ≡ string_bytes out.old
        ++ text_of (applied name.now (map term_pieces terms.now))) }
{
    out.push_str(name.as_str())?;
    if terms.is_empty() {
        return Ok(());
    }
    out.push_str("(")?;
    push_terms(terms, out)?;
    out.push_str(")")
}

/// Appends a tuple. A single member has a comma behind it.
#[cycle(printing)]
fn push_tuple(terms: &[Term], out: &mut String) -> Result<(), AllocError>
    ensures { OnOk result (string_bytes out.new ≡ string_bytes out.old
        ++ text_of (in_parentheses (members (map term_pieces terms.now)))) }
{
    out.push_str("(")?;
    push_terms(terms, out)?;
    if terms.len() == 1 {
        return out.push_str(", )");
    }
    out.push_str(")")
}

/// Appends terms, with commas between them.
#[cycle(printing)]
pub(crate) fn push_terms(terms: &[Term], out: &mut String) -> Result<(), AllocError>
    ensures { OnOk result (string_bytes out.new ≡ string_bytes out.old ++ text_of (terms_pieces terms.now)) }
{
    let mut between = "";
    for term in terms {
        out.push_str(between)?;
        push_term(term, out)?;
        between = ", ";
    }
    Ok(())
}

/// Appends an atom.
pub(crate) fn push_atom(atom: &Atom, out: &mut String) -> Result<(), AllocError>
    ensures { OnOk result (string_bytes out.new ≡ string_bytes out.old ++ text_of (atom_pieces atom.now)) }
{
    push_applied(&atom.name, atom.terms.as_slice(), out)
}

impl Canonical for Literal {
    ghost pieces = { literal_pieces };

    fn push(&self, out: &mut String) -> Result<(), AllocError> {
        match self {
            Literal::Pos(atom) => push_atom(atom, out),
            Literal::Not(atom) => {
                out.push_str("not ")?;
                push_atom(atom, out)
            }
            Literal::Compare(left, rel, right) => {
                push_term(left.get(), out)?;
                push_spaced(rel.sign(), out)?;
                push_term(right.get(), out)
            }
        }
    }
}

/// Appends literals, with commas between them.
pub(crate) fn push_literals(literals: &[Literal], out: &mut String) -> Result<(), AllocError>
    ensures { OnOk result (string_bytes out.new ≡ string_bytes out.old ++ text_of (literals_pieces literals.now)) }
{
    push_parted(Separator::Comma, literals, out)
}
