// `#program`, and single statements.
#![tactic(auto, using(literal_parse::proofs::Steps::no_memory))]

ghost use Rattle.std.specs.Prelude.{◌≡◌, ◌++◌, IfOk, length, ◌≤◌};
ghost use Rattle.ap_grammar.specs.Grammar.{Name as names};
ghost use Rattle.ap_grammar.specs.Factored.{call};
ghost use Rattle.ap_parse.specs.Openings.{IsKind, IsOpening, IsPart, is_of_type, opening_form, opening_statement, part_form};
ghost use Rattle.literal_parse.specs.Reads.{Reads};
ghost use Rattle.ap_parse.specs.Statements.{IsStatement};

use crate::statements::{begins_statement, read_statement};
use ap_grammar::Terminal;
use ap_syntax::{PartKind, Statement, Text};
use literal_parse::{Cursor, Place, Stop};
use std::alloc::{AllocError, Global};

/// A `#program`, with the place of its first token.
#[derive(Debug, Drop)]
pub struct Opening {
    /// The place of its first token.
    pub place: Place,
    /// The part that it opens.
    pub part: PartKind,
}

impl Opening {
    /// Whether it opens a type's part.
    pub fn is_of_type(&self) -> bool
        ensures { result ≡ is_of_type self.now.part }
    {
        match self.part {
            PartKind::Base => false,
            PartKind::Kind(_) => true,
        }
    }

    /// Its statement.
    pub fn into_statement(self) -> Statement
        ensures { result ≡ opening_statement self }
    {
        Statement::Part {
            file: self.place.file,
            at: self.place.at,
            part: self.part,
        }
    }
}

// These four texts in a row.
fn joined(
    alloc: Global,
    name: &str,
    left: &str,
    inner: &str,
    right: &str,
) -> Result<Text, AllocError>
    ensures { IfOk result (λ text. text ≡ name.now ++ (left.now ++ (inner.now ++ right.now))) }
{
    let mut all = String::from_str(alloc, name)?;
    all.push_str(left)?;
    all.push_str(inner)?;
    all.push_str(right)?;
    Text::new(alloc, all.as_str())
}

/// The type of a preference: a name, alone or with another one in parentheses.
///
/// `Syntax` comes where the next token goes on with no such type; `Memory` for want of memory alone.
pub fn read_kind(alloc: Global, tokens: &mut Cursor<'_>) -> Result<Text, Stop>
    ensures read { Reads (call names.Kind) IsKind tokens.old tokens.new result }
    ensures shorter { length tokens.new ≤ length tokens.old }
{
    let name = tokens.name(alloc)?;
    let Some(left) = tokens.take(Terminal::Open) else {
        return Ok(name);
    };
    let inner = tokens.name(alloc)?;
    let Some(right) = tokens.take(Terminal::Close) else {
        return Err(Stop::Syntax);
    };
    let kind = joined(alloc, name.as_str(), left, inner.as_str(), right)?;
    Ok(kind)
}

// What stands behind `#program`: `base.` or `preference(type).`
fn read_part(alloc: Global, tokens: &mut Cursor<'_>) -> Result<PartKind, Stop>
    ensures read { Reads part_form IsPart tokens.old tokens.new result }
    ensures shorter { length tokens.new ≤ length tokens.old }
{
    if tokens.eat(Terminal::Base) {
        tokens.expect(Terminal::Dot)?;
        return Ok(PartKind::Base);
    }
    tokens.expect(Terminal::Preference)?;
    tokens.expect(Terminal::Open)?;
    let kind = read_kind(alloc, tokens)?;
    tokens.expect(Terminal::Close)?;
    tokens.expect(Terminal::Dot)?;
    Ok(PartKind::Kind(kind))
}

/// A `#program`.
///
/// `Syntax` comes where the next token goes on with no `#program`; `Memory` for want of memory alone.
pub fn read_opening(alloc: Global, tokens: &mut Cursor<'_>) -> Result<Opening, Stop>
    ensures read { Reads opening_form IsOpening tokens.old tokens.new result }
    ensures shorter { length tokens.new ≤ length tokens.old }
{
    let place = tokens.place();
    tokens.expect(Terminal::Program)?;
    let part = read_part(alloc, tokens)?;
    Ok(Opening { place, part })
}

/// One statement, in a type's part or not, or a `#program`.
///
/// `Syntax` comes where the next token goes on with neither; `Memory` for want of memory alone.
pub fn read_one(alloc: Global, tokens: &mut Cursor<'_>, of_type: bool) -> Result<Statement, Stop>
    ensures read { Reads (call (names.One of_type)) IsStatement tokens.old tokens.new result }
    ensures shorter { length tokens.new ≤ length tokens.old }
{
    if begins_statement(tokens, of_type) {
        return read_statement(alloc, tokens, of_type);
    }
    let opening = read_opening(alloc, tokens)?;
    Ok(opening.into_statement())
}
