// Atoms, relations, literals and conditions.
#![tactic(auto, using(crate::proofs::Steps::no_memory))]

ghost use Rattle.std.specs.Prelude.{◌≡◌, ◌∷◌, [], length, ◌≤◌};
ghost use Rattle.grammar.specs.Form.{opt};
ghost use Rattle.ap_grammar.specs.Grammar.{Name as names};
ghost use Rattle.ap_grammar.specs.Factored.{call, Part as parts};
ghost use Rattle.ap_grammar.specs.Tables.{tables};
ghost use Rattle.literal_parse.specs.Literals.{IsAtom, IsCondition, IsLiteral, IsLiterals, IsOptionalCondition, RelOf, Relations};
ghost use Rattle.literal_parse.specs.Reads.{Reads, Tells};

use crate::cursor::Cursor;
use crate::error::Stop;
use crate::terms::{read_arguments, read_term};
use ap_grammar::Terminal;
use ap_syntax::{Atom, Literal, Rel, fitted};
use sqlite_items::{Boxed, Items};
use std::alloc::Global;

// The relation of a sign.
fn rel_of(terminal: Terminal) -> Option<Rel>
    ensures { RelOf terminal result }
{
    match terminal {
        Terminal::Equal => Some(Rel::Eq),
        Terminal::Same => Some(Rel::Eq),
        Terminal::Unequal => Some(Rel::Ne),
        Terminal::Less => Some(Rel::Lt),
        Terminal::AtMost => Some(Rel::Le),
        Terminal::Greater => Some(Rel::Gt),
        Terminal::AtLeast => Some(Rel::Ge),
        _ => None,
    }
}

/// Reads the sign of a relation, if one comes next; `==` is `=`. Where none does it answers nothing, and no token is
/// read.
pub fn relation(tokens: &mut Cursor<'_>) -> Option<Rel>
    ensures { Relations tokens.old tokens.new result }
{
    let next = tokens.peek()?;
    let rel = rel_of(next)?;
    tokens.advance();
    Some(rel)
}

/// Whether a term begins with a token of this kind.
pub fn is_term_start(terminal: Terminal) -> bool
    ensures { result ≡ tables.first (parts.Of names.Term) terminal }
{
    matches!(
        terminal,
        Terminal::Number
            | Terminal::Base
            | Terminal::Preference
            | Terminal::Word
            | Terminal::Variable
            | Terminal::Any
            | Terminal::String
            | Terminal::Open
            | Terminal::Minus
    )
}

// Whether a list of literals begins with a token of this kind.
fn is_literal_start(terminal: Terminal) -> bool
    ensures { result ≡ tables.first (parts.Of names.Literals) terminal }
{
    match terminal {
        Terminal::Not => true,
        other => is_term_start(other),
    }
}

// Whether the next token begins a list of literals.
fn begins_literals(tokens: &Cursor<'_>) -> bool
    ensures { Tells (call names.Literals) tokens.now result }
{
    match tokens.peek() {
        Some(terminal) => is_literal_start(terminal),
        None => false,
    }
}

/// An atom.
///
/// `Syntax` comes where no name comes next, or behind it the next token goes on with no arguments that have begun; `Memory` for
/// want of memory alone.
pub fn read_atom(alloc: Global, tokens: &mut Cursor<'_>) -> Result<Atom, Stop>
    ensures read { Reads (call names.Atom) (IsAtom tokens.old) tokens.old tokens.new result }
    ensures shorter { length tokens.new ≤ length tokens.old }
{
    let name = tokens.name(alloc)?;
    let terms = read_arguments(alloc, tokens)?;
    Ok(Atom { name, terms })
}

/// A literal.
///
/// `Syntax` comes where the next token goes on with no literal: also behind a term that is no atom, if no relation follows;
/// `Memory` for want of memory alone.
pub fn read_literal(alloc: Global, tokens: &mut Cursor<'_>) -> Result<Literal, Stop>
    ensures read { Reads (call names.Literal) (IsLiteral tokens.old) tokens.old tokens.new result }
    ensures shorter { length tokens.new ≤ length tokens.old }
{
    if tokens.eat(Terminal::Not) {
        let atom = read_atom(alloc, tokens)?;
        return Ok(Literal::Not(atom));
    }
    let left = read_term(alloc, tokens)?;
    if let Some(rel) = relation(tokens) {
        let right = read_term(alloc, tokens)?;
        let left = left.boxed(alloc)?;
        let right = right.boxed(alloc)?;
        return Ok(Literal::Compare(left, rel, right));
    }
    let bare = left.into_atom()?;
    Ok(Literal::Pos(bare))
}

/// One literal or more, with commas between them.
///
/// `Syntax` comes where the next token, at first or behind a comma, goes on with no literal; `Memory` for want of memory alone.
pub fn read_literals(alloc: Global, tokens: &mut Cursor<'_>) -> Result<Items<Literal>, Stop>
    ensures read { Reads (call names.Literals) IsLiterals tokens.old tokens.new result }
    ensures shorter { length tokens.new ≤ length tokens.old }
{
    let first = read_literal(alloc, tokens)?;
    let mut literals = Vec::new(alloc);
    literals.push(first)?;
    'commas: while tokens.eat(Terminal::Comma) {
        let next = read_literal(alloc, tokens)?;
        literals.push(next)?;
    }
    Ok(fitted(literals))
}

/// A condition: a colon, and literals or none.
///
/// `Syntax` comes where no colon comes next, or the next token does not go on with literals that begin behind it; `Memory` for
/// want of memory alone.
pub fn read_condition(alloc: Global, tokens: &mut Cursor<'_>) -> Result<Items<Literal>, Stop>
    ensures read { Reads (call names.Condition) IsCondition tokens.old tokens.new result }
    ensures shorter { length tokens.new ≤ length tokens.old }
{
    tokens.expect(Terminal::Colon)?;
    if begins_literals(tokens) {
        read_literals(alloc, tokens)
    } else {
        Ok(Items::new(alloc))
    }
}

/// A condition, or none. Where no colon comes next the list is empty, and no token is read.
///
/// `Syntax` comes where a colon comes next and the next token does not go on with literals that begin behind it; `Memory` for
/// want of memory alone.
pub fn read_optional_condition(
    alloc: Global,
    tokens: &mut Cursor<'_>,
) -> Result<Items<Literal>, Stop>
    ensures read { Reads (opt (call names.Condition)) IsOptionalCondition tokens.old tokens.new result }
    ensures shorter { length tokens.new ≤ length tokens.old }
{
    if tokens.sees(Terminal::Colon) {
        read_condition(alloc, tokens)
    } else {
        Ok(Items::new(alloc))
    }
}
