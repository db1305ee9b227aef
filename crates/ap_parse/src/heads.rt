// Heads of rules.
#![tactic(auto, using(literal_parse::proofs::Steps::no_memory))]

ghost use Rattle.std.specs.Prelude.{◌≡◌, length, ◌≤◌};
ghost use Rattle.ap_grammar.specs.Grammar.{Name as names};
ghost use Rattle.ap_grammar.specs.Factored.{call, Part as parts};
ghost use Rattle.ap_grammar.specs.Tables.{tables};
ghost use Rattle.ap_parse.specs.Heads.{IsHead};
ghost use Rattle.literal_parse.specs.Reads.{Reads, Tells};

use crate::choices::read_choice;
use ap_grammar::Terminal;
use ap_syntax::{Guard, HeadForm, Rel};
use literal_parse::{Cursor, Stop, is_term_start, read_term, relation};
use sqlite_items::Boxed;
use std::alloc::Global;

// Whether a head begins with a token of this kind.
fn is_head_start(terminal: Terminal) -> bool
    ensures { result ≡ tables.first (parts.Of names.Head) terminal }
{
    match terminal {
        Terminal::OpenBrace => true,
        other => is_term_start(other),
    }
}

/// Whether the next token begins a head.
pub fn begins_head(tokens: &Cursor<'_>) -> bool
    ensures { Tells (call names.Head) tokens.now result }
{
    match tokens.peek() {
        Some(terminal) => is_head_start(terminal),
        None => false,
    }
}

// Whether the next token begins a term.
fn begins_term(tokens: &Cursor<'_>) -> bool
    ensures { Tells (call names.Term) tokens.now result }
{
    match tokens.peek() {
        Some(terminal) => is_term_start(terminal),
        None => false,
    }
}

/// A head that derives something: an atom, or a choice with its left guard, whose relation may be missing for `<=`, or none.
///
/// `Syntax` comes where the next token goes on with no such head; `Memory` for want of memory alone.
pub fn read_head(alloc: Global, tokens: &mut Cursor<'_>) -> Result<HeadForm, Stop>
    ensures read { Reads (call names.Head) (IsHead tokens.old) tokens.old tokens.new result }
    ensures shorter { length tokens.new ≤ length tokens.old }
{
    if !begins_term(tokens) {
        return read_choice(alloc, tokens, None);
    }
    let first = read_term(alloc, tokens)?;
    if let Some(rel) = relation(tokens) {
        let term = first.into_term(alloc)?;
        let guard = Boxed::new(alloc, Guard { rel, term })?;
        return read_choice(alloc, tokens, Some(guard));
    }
    if tokens.sees(Terminal::OpenBrace) {
        let term = first.into_term(alloc)?;
        let guard = Boxed::new(alloc, Guard { rel: Rel::Le, term })?;
        return read_choice(alloc, tokens, Some(guard));
    }
    let atom = first.into_atom()?;
    Ok(HeadForm::One(atom))
}
