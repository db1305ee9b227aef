// What may be a term or a formula: how a rank begins.
#![tactic(auto, using(literal_parse::proofs::Steps::no_memory))]

ghost use Rattle.std.specs.Prelude.{◌≡◌, length, ◌≤◌};
ghost use Rattle.grammar.specs.Form.Form.{Call};
ghost use Rattle.grammar.specs.Tables.{starts};
ghost use Rattle.ap_grammar.specs.Factored.{Part as parts, inner_behind, mixed_behind};
ghost use Rattle.ap_grammar.specs.Tables.{tables};
ghost use Rattle.ap_grammar.specs.Values.Class.{Either};
ghost use Rattle.literal_parse.specs.Reads.{Reads, Tells};
ghost use Rattle.pref_parse.specs.Mixed.{IsInner, IsInnerRest, IsMixed, IsMixedRest, OperandOr, class_of, either, inner, simple};

use crate::formulas::{begins_connective, read_formula_rest, read_unit};
use crate::operators::{begins_operator, read_term_rest};
use ap_grammar::Terminal;
use ap_syntax::{Atom, Formula, Term};
use literal_parse::{Cursor, Operand, Stop, read_arguments, read_primary, read_tuple};
use sqlite_items::{Boxed, Items};
use std::alloc::Global;

/// What was read of a term or a formula.
#[derive(Debug, Drop)]
pub enum Mixed {
    /// An atom, in any number of parentheses: it may be a term or a formula.
    Either(Atom),
    /// Any other formula.
    Formed(Formula),
    /// Any other term.
    Other(Term),
}

impl Mixed {
    // What was read of a term, where it may be one.
    fn into_operand(self) -> Result<Operand, Stop>
        ensures { OperandOr self result }
    {
        match self {
            Mixed::Either(atom) => Ok(Operand::Bare(atom)),
            Mixed::Formed(_) => Err(Stop::Syntax),
            Mixed::Other(term) => Ok(Operand::Other(term)),
        }
    }
}

// Whether a token of this kind is a term that nothing else begins.
fn is_simple(terminal: Terminal) -> bool
    ensures { result ≡ starts tables simple terminal }
{
    matches!(
        terminal,
        Terminal::Number | Terminal::String | Terminal::Variable | Terminal::Any
    )
}

// Whether the next token is a term that nothing else begins.
fn begins_simple(tokens: &Cursor<'_>) -> bool
    ensures { Tells simple tokens.now result }
{
    match tokens.peek() {
        Some(terminal) => is_simple(terminal),
        None => false,
    }
}

/// A term or a formula.
///
/// `Syntax` comes where the next token goes on with neither; `Memory` for want of memory alone.
#[cycle(mixed)]
pub fn read_mixed(alloc: Global, tokens: &mut Cursor<'_>) -> Result<Mixed, Stop>
    ensures read { Reads (Call parts.Mixed) (IsMixed tokens.old) tokens.old tokens.new result }
    ensures shorter { length tokens.new ≤ length tokens.old }
{
    let front = read_front(alloc, tokens)?;
    read_mixed_rest(alloc, tokens, front)
}

// The first primary term or the first member.
#[cycle(mixed)]
fn read_front(alloc: Global, tokens: &mut Cursor<'_>) -> Result<Mixed, Stop>
    ensures read { Reads (Call parts.Front) (IsMixed tokens.old) tokens.old tokens.new result }
    ensures shorter { length tokens.new ≤ length tokens.old }
{
    if tokens.eat(Terminal::Not) {
        let negated = read_unit(alloc, tokens)?;
        return Ok(Mixed::Formed(Formula::Not(Boxed::new(alloc, negated)?)));
    }
    if tokens.eat(Terminal::Minus) {
        let term = read_primary(alloc, tokens)?;
        let negated = term.boxed(alloc)?;
        return Ok(Mixed::Other(Term::Minus(negated)));
    }
    if begins_simple(tokens) {
        let term = read_primary(alloc, tokens)?;
        return Ok(Mixed::Other(term.into_term(alloc)?));
    }
    if tokens.eat(Terminal::Open) {
        return read_inner(alloc, tokens);
    }
    let name = tokens.name(alloc)?;
    let terms = read_arguments(alloc, tokens)?;
    Ok(Mixed::Either(Atom { name, terms }))
}

// What stands behind a parenthesis.
#[cycle(mixed)]
fn read_inner(alloc: Global, tokens: &mut Cursor<'_>) -> Result<Mixed, Stop>
    ensures read { Reads inner IsInner tokens.old tokens.new result }
    ensures shorter { length tokens.new ≤ length tokens.old }
{
    if tokens.eat(Terminal::Close) {
        return Ok(Mixed::Other(Term::Tuple(Items::new(alloc))));
    }
    let inner = read_mixed(alloc, tokens)?;
    read_inner_rest(alloc, tokens, inner)
}

// What stands behind a parenthesis and a term or a formula.
fn read_inner_rest(alloc: Global, tokens: &mut Cursor<'_>, inner: Mixed) -> Result<Mixed, Stop>
    ensures read { Reads (inner_behind (class_of inner)) (IsInnerRest inner) tokens.old tokens.new result }
    ensures shorter { length tokens.new ≤ length tokens.old }
{
    if tokens.eat(Terminal::Close) {
        return Ok(inner);
    }
    let operand = inner.into_operand()?;
    tokens.expect(Terminal::Comma)?;
    let first = operand.into_term(alloc)?;
    let tuple = read_tuple(alloc, tokens, first)?;
    Ok(Mixed::Other(tuple))
}

// The rest behind the first primary term or the first member.
fn read_mixed_rest(alloc: Global, tokens: &mut Cursor<'_>, front: Mixed) -> Result<Mixed, Stop>
    ensures read { Reads (mixed_behind (class_of front)) (IsMixedRest front) tokens.old tokens.new result }
    ensures shorter { length tokens.new ≤ length tokens.old }
{
    match front {
        Mixed::Either(atom) => read_either_rest(alloc, tokens, atom),
        Mixed::Formed(formula) => {
            let whole = read_formula_rest(alloc, tokens, formula)?;
            Ok(Mixed::Formed(whole))
        }
        Mixed::Other(term) => {
            let whole = read_term_rest(alloc, tokens, term)?;
            Ok(Mixed::Other(whole))
        }
    }
}

// The rest behind an atom: of a term, of a formula, or none.
fn read_either_rest(alloc: Global, tokens: &mut Cursor<'_>, atom: Atom) -> Result<Mixed, Stop>
    ensures read { Reads (mixed_behind Either) (IsMixedRest (either atom)) tokens.old tokens.new result }
    ensures shorter { length tokens.new ≤ length tokens.old }
{
    if begins_operator(tokens) {
        let first = Operand::Bare(atom).into_term(alloc)?;
        let term = read_term_rest(alloc, tokens, first)?;
        return Ok(Mixed::Other(term));
    }
    if begins_connective(tokens) {
        let formula = read_formula_rest(alloc, tokens, Formula::Atom(atom))?;
        return Ok(Mixed::Formed(formula));
    }
    Ok(Mixed::Either(atom))
}
