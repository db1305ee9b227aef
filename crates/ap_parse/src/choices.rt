// Choices: elements in braces, and the guard behind them.
#![tactic(auto, using(literal_parse::proofs::Steps::no_memory))]

ghost use Rattle.std.specs.Prelude.{◌≡◌, length, ◌≤◌};
ghost use Rattle.ap_grammar.specs.Grammar.{Name as names};
ghost use Rattle.ap_grammar.specs.Factored.{call, choice, Part as parts};
ghost use Rattle.ap_grammar.specs.Tables.{tables};
ghost use Rattle.ap_parse.specs.Choices.{braced, listed, IsBraced, IsChoice, IsChoiceElement, IsListed};
ghost use Rattle.literal_parse.specs.Reads.{Reads, Tells};

use crate::guards::read_optional_guard;
use ap_grammar::Terminal;
use ap_syntax::{ChoiceElement, Guard, HeadForm, fitted};
use literal_parse::{Cursor, Stop, read_atom, read_optional_condition};
use sqlite_items::{Boxed, Items};
use std::alloc::Global;

// Whether an element begins with a token of this kind: with a name.
fn is_element_start(terminal: Terminal) -> bool
    ensures { result ≡ tables.first (parts.Of names.ChoiceElement) terminal }
{
    matches!(
        terminal,
        Terminal::Base | Terminal::Preference | Terminal::Word
    )
}

// Whether the next token begins an element.
fn begins_element(tokens: &Cursor<'_>) -> bool
    ensures { Tells (call names.ChoiceElement) tokens.now result }
{
    match tokens.peek() {
        Some(terminal) => is_element_start(terminal),
        None => false,
    }
}

// An element: an atom, with a condition or without.
fn read_element(alloc: Global, tokens: &mut Cursor<'_>) -> Result<ChoiceElement, Stop>
    ensures read { Reads (call names.ChoiceElement) IsChoiceElement tokens.old tokens.new result }
    ensures shorter { length tokens.new ≤ length tokens.old }
{
    let atom = read_atom(alloc, tokens)?;
    let condition = read_optional_condition(alloc, tokens)?;
    Ok(ChoiceElement { atom, condition })
}

// Elements with semicolons between them, or none.
fn read_listed(alloc: Global, tokens: &mut Cursor<'_>) -> Result<Items<ChoiceElement>, Stop>
    ensures read { Reads listed IsListed tokens.old tokens.new result }
    ensures shorter { length tokens.new ≤ length tokens.old }
{
    if !begins_element(tokens) {
        return Ok(Items::new(alloc));
    }
    let first = read_element(alloc, tokens)?;
    let mut elements = Vec::new(alloc);
    elements.push(first)?;
    'semicolons: while tokens.eat(Terminal::Semicolon) {
        let next = read_element(alloc, tokens)?;
        elements.push(next)?;
    }
    Ok(fitted(elements))
}

// The elements of a choice in their braces.
fn read_braced(alloc: Global, tokens: &mut Cursor<'_>) -> Result<Items<ChoiceElement>, Stop>
    ensures read { Reads braced (IsBraced tokens.old) tokens.old tokens.new result }
    ensures shorter { length tokens.new ≤ length tokens.old }
{
    if !tokens.eat(Terminal::OpenBrace) {
        return Err(Stop::Syntax);
    }
    let elements = read_listed(alloc, tokens)?;
    tokens.expect(Terminal::CloseBrace)?;
    Ok(elements)
}

/// A choice behind its left guard, or with none. `left` is that guard.
///
/// `Syntax` comes where the next token goes on with no choice behind its left guard; `Memory` for want of memory alone.
pub fn read_choice(
    alloc: Global,
    tokens: &mut Cursor<'_>,
    left: Option<Boxed<Guard>>,
) -> Result<HeadForm, Stop>
    ensures read { Reads choice (IsChoice tokens.old left) tokens.old tokens.new result }
    ensures shorter { length tokens.new ≤ length tokens.old }
{
    let elements = read_braced(alloc, tokens)?;
    let right = read_optional_guard(alloc, tokens)?;
    let elements = Boxed::new(alloc, elements)?;
    Ok(HeadForm::Choice {
        left,
        elements,
        right,
    })
}
