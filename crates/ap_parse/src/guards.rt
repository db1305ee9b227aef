// Guards.
#![tactic(auto, using(literal_parse::proofs::Steps::no_memory))]

ghost use Rattle.std.specs.Prelude.{◌≡◌, length, ◌≤◌};
ghost use Rattle.grammar.specs.Form.{opt};
ghost use Rattle.ap_grammar.specs.Grammar.{Name as names};
ghost use Rattle.ap_grammar.specs.Factored.{call, Part as parts};
ghost use Rattle.ap_grammar.specs.Tables.{tables};
ghost use Rattle.ap_parse.specs.Guards.{IsOptionalGuard, IsRightGuard};
ghost use Rattle.literal_parse.specs.Reads.{Reads, Tells};

use ap_grammar::Terminal;
use ap_syntax::{Guard, Rel};
use literal_parse::{Cursor, Stop, is_term_start, read_term, relation};
use sqlite_items::Boxed;
use std::alloc::Global;

// Whether a guard behind the braces begins with a token of this kind.
fn is_guard_start(terminal: Terminal) -> bool
    ensures { result ≡ tables.first (parts.Of names.RightGuard) terminal }
{
    match terminal {
        Terminal::Equal
        | Terminal::Same
        | Terminal::Unequal
        | Terminal::Less
        | Terminal::AtMost
        | Terminal::Greater
        | Terminal::AtLeast => true,
        other => is_term_start(other),
    }
}

// Whether the next token begins a guard behind the braces.
fn begins_guard(tokens: &Cursor<'_>) -> bool
    ensures { Tells (call names.RightGuard) tokens.now result }
{
    match tokens.peek() {
        Some(terminal) => is_guard_start(terminal),
        None => false,
    }
}

/// A guard behind the braces: its relation, or none for `<=`, and its term.
///
/// `Syntax` comes where the next token goes on with no such guard; `Memory` for want of memory alone.
pub fn read_right_guard(alloc: Global, tokens: &mut Cursor<'_>) -> Result<Guard, Stop>
    ensures read { Reads (call names.RightGuard) IsRightGuard tokens.old tokens.new result }
    ensures shorter { length tokens.new ≤ length tokens.old }
{
    let rel = relation(tokens).unwrap_or(Rel::Le);
    let read = read_term(alloc, tokens)?;
    let term = read.into_term(alloc)?;
    Ok(Guard { rel, term })
}

/// A guard behind the braces. Where none begins it answers nothing, and no token is read.
///
/// `Syntax` comes where a guard begins and the next token does not go on with it; `Memory` for want of memory alone.
pub fn read_optional_guard(
    alloc: Global,
    tokens: &mut Cursor<'_>,
) -> Result<Option<Boxed<Guard>>, Stop>
    ensures read { Reads (opt (call names.RightGuard)) IsOptionalGuard tokens.old tokens.new result }
    ensures shorter { length tokens.new ≤ length tokens.old }
{
    if !begins_guard(tokens) {
        return Ok(None);
    }
    let guard = read_right_guard(alloc, tokens)?;
    Ok(Some(Boxed::new(alloc, guard)?))
}
