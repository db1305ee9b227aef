// Sections, and whole texts.
#![tactic(auto, using(literal_parse::proofs::Steps::no_memory))]

ghost use Rattle.std.specs.Prelude.{true, length, ◌≤◌};
ghost use Rattle.std.specs.Global.{Vec as VecSpec};
ghost use Rattle.grammar.specs.Form.Form.{Call, Star};
ghost use Rattle.ap_grammar.specs.Grammar.{Name as names};
ghost use Rattle.ap_grammar.specs.Factored.{call, Part as parts};
ghost use Rattle.literal_parse.specs.Reads.{Reads};
ghost use Rattle.ap_syntax.specs.declared.programs.Statement.{Statement as StatementSpec};
ghost use Rattle.ap_parse.specs.Sections.{IsMore, IsProgram, IsSection};

use crate::statements::{begins_any, read_any};
use ap_grammar::Terminal;
use ap_parse::read_opening;
use ap_syntax::{Statement, Statements};
use literal_parse::{Cursor, Stop};
use std::alloc::Global;

// The statements up to the first token that begins none, behind those that were read before.
fn read_statements(
    alloc: Global,
    tokens: &mut Cursor<'_>,
    of_type: bool,
    mut statements: Vec<Statement>,
) -> Result<Vec<Statement>, Stop>
    ensures read { Reads (Star (call (names.Statement true of_type))) (λ (all : VecSpec StatementSpec). IsMore statements.items all.items) tokens.old tokens.new result }
    ensures shorter { length tokens.new ≤ length tokens.old }
{
    'statements: while begins_any(tokens, of_type) {
        let next = read_any(alloc, tokens, of_type)?;
        statements.push(next)?;
    }
    Ok(statements)
}

// A `#program` and the statements of its part, behind those that were read before.
fn read_section(
    alloc: Global,
    tokens: &mut Cursor<'_>,
    mut statements: Vec<Statement>,
) -> Result<Vec<Statement>, Stop>
    ensures read { Reads (Call (parts.Section true)) (λ (all : VecSpec StatementSpec). IsSection statements.items all.items) tokens.old tokens.new result }
    ensures shorter { length tokens.new ≤ length tokens.old }
{
    let opening = read_opening(alloc, tokens)?;
    let of_type = opening.is_of_type();
    statements.push(opening.into_statement())?;
    read_statements(alloc, tokens, of_type, statements)
}

/// A whole text that begins in a type's part or not: its statements and each `#program`, in order. It stops before the first
/// token that begins neither.
///
/// `Syntax` comes where the next token does not go on with a statement or `#program` that has begun; `Memory` for want of
/// memory alone.
pub fn read_text(alloc: Global, tokens: &mut Cursor<'_>, of_type: bool) -> Result<Statements, Stop>
    ensures read { Reads (call (names.Text true of_type)) IsProgram tokens.old tokens.new result }
    ensures shorter { length tokens.new ≤ length tokens.old }
{
    let mut statements = read_statements(alloc, tokens, of_type, Vec::new(alloc))?;
    'sections: while tokens.sees(Terminal::Program) {
        statements = read_section(alloc, tokens, statements)?;
    }
    Ok(Statements::fitted(statements))
}
