// Preference statements, `#optimize`, and statements of all kinds.
#![tactic(auto, using(literal_parse::proofs::Steps::no_memory))]

ghost use Rattle.std.specs.Prelude.{◌≡◌, true, length, ◌≤◌};
ghost use Rattle.ap_grammar.specs.Grammar.{Name as names};
ghost use Rattle.ap_grammar.specs.Factored.{call, Part as parts};
ghost use Rattle.ap_grammar.specs.Tables.{tables};
ghost use Rattle.literal_parse.specs.Reads.{Reads, Tells};
ghost use Rattle.ap_parse.specs.Statements.{IsStatement};
ghost use Rattle.pref_parse.specs.Statements.{IsPreference};

use crate::elements::read_elements;
use ap_grammar::Terminal;
use ap_parse::{is_statement_start, read_kind, read_statement};
use ap_syntax::{Preference, Statement};
use literal_parse::{Cursor, Stop};
use std::alloc::Global;

// Whether a statement of any kind begins with a token of this kind.
fn is_start(terminal: Terminal, of_type: bool) -> bool
    ensures { result ≡ tables.first (parts.Of (names.Statement true of_type)) terminal }
{
    match terminal {
        Terminal::Statement => true,
        Terminal::Optimize => true,
        other => is_statement_start(other, of_type),
    }
}

/// Whether the next token begins a statement of any kind.
pub fn begins_any(tokens: &Cursor<'_>, of_type: bool) -> bool
    ensures { Tells (call (names.Statement true of_type)) tokens.now result }
{
    match tokens.peek() {
        Some(terminal) => is_start(terminal, of_type),
        None => false,
    }
}

// A preference statement.
fn read_preference(alloc: Global, tokens: &mut Cursor<'_>) -> Result<Preference, Stop>
    ensures read { Reads (call names.Preference) IsPreference tokens.old tokens.new result }
    ensures shorter { length tokens.new ≤ length tokens.old }
{
    let place = tokens.place();
    tokens.expect(Terminal::Statement)?;
    tokens.expect(Terminal::Open)?;
    let name = tokens.name(alloc)?;
    tokens.expect(Terminal::Comma)?;
    let kind = read_kind(alloc, tokens)?;
    tokens.expect(Terminal::Close)?;
    let elements = read_elements(alloc, tokens)?;
    tokens.expect(Terminal::Dot)?;
    Ok(Preference {
        file: place.file,
        at: place.at,
        name,
        kind,
        elements,
    })
}

// `#optimize` with the name of a preference statement.
fn read_optimize(alloc: Global, tokens: &mut Cursor<'_>) -> Result<Statement, Stop>
    ensures read { Reads (call names.Optimize) IsStatement tokens.old tokens.new result }
    ensures shorter { length tokens.new ≤ length tokens.old }
{
    let place = tokens.place();
    tokens.expect(Terminal::Optimize)?;
    tokens.expect(Terminal::Open)?;
    let name = tokens.name(alloc)?;
    tokens.expect(Terminal::Close)?;
    tokens.expect(Terminal::Dot)?;
    Ok(Statement::Optimize {
        file: place.file,
        at: place.at,
        name,
    })
}

/// A statement of any kind, in a type's part or not.
///
/// `Syntax` comes where the next token goes on with no such statement; `Memory` for want of memory alone.
pub fn read_any(alloc: Global, tokens: &mut Cursor<'_>, of_type: bool) -> Result<Statement, Stop>
    ensures read { Reads (call (names.Statement true of_type)) IsStatement tokens.old tokens.new result }
    ensures shorter { length tokens.new ≤ length tokens.old }
{
    if tokens.sees(Terminal::Statement) {
        let preference = read_preference(alloc, tokens)?;
        return Ok(Statement::Preference(preference));
    }
    if tokens.sees(Terminal::Optimize) {
        return read_optimize(alloc, tokens);
    }
    read_statement(alloc, tokens, of_type)
}
