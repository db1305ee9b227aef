// Statements other than preference statements and `#optimize`.
#![tactic(auto, using(literal_parse::proofs::Steps::no_memory))]

ghost use Rattle.std.specs.Prelude.{◌≡◌, false, length, ◌≤◌};
ghost use Rattle.grammar.specs.Form.{opt};
ghost use Rattle.grammar.specs.Form.Form.{Tok};
ghost use Rattle.ap_grammar.specs.Grammar.{Name as names};
ghost use Rattle.ap_grammar.specs.Factored.{call, Part as parts};
ghost use Rattle.ap_grammar.specs.Tables.{tables};
ghost use Rattle.ap_grammar.specs.declared.terminals.Terminal.TheVariants as terminals;
ghost use Rattle.literal_parse.specs.Reads.{Reads, Tells};
ghost use Rattle.ap_parse.specs.Statements.{IsConstant, IsNumber, IsOptionalSignature, IsSignature, IsStatement, signature};

use crate::rules::read_rule;
use ap_grammar::Terminal;
use ap_syntax::{Statement, Term, Text};
use literal_parse::{Cursor, Stop, is_term_start, string};
use sqlite_items::Boxed;
use std::alloc::Global;

// Whether a token of this kind is a name.
fn is_name(terminal: Terminal) -> bool
    ensures { result ≡ tables.first (parts.Of names.Ident) terminal }
{
    matches!(
        terminal,
        Terminal::Word | Terminal::Base | Terminal::Preference
    )
}

// Whether the next token is a name.
fn begins_name(tokens: &Cursor<'_>) -> bool
    ensures { Tells (call names.Ident) tokens.now result }
{
    match tokens.peek() {
        Some(terminal) => is_name(terminal),
        None => false,
    }
}

// Whether a rule of the base program begins with a token of this kind.
fn is_base_rule_start(terminal: Terminal) -> bool
    ensures { result ≡ tables.first (parts.Of (names.Rule false)) terminal }
{
    match terminal {
        Terminal::If => true,
        Terminal::OpenBrace => true,
        other => is_term_start(other),
    }
}

// Whether a rule begins with a token of this kind: in a type's part a name.
fn is_rule_start(terminal: Terminal, of_type: bool) -> bool
    ensures { result ≡ tables.first (parts.Of (names.Rule of_type)) terminal }
{
    if of_type {
        is_name(terminal)
    } else {
        is_base_rule_start(terminal)
    }
}

// Whether the next token begins a rule.
fn begins_rule(tokens: &Cursor<'_>, of_type: bool) -> bool
    ensures { Tells (call (names.Rule of_type)) tokens.now result }
{
    match tokens.peek() {
        Some(terminal) => is_rule_start(terminal, of_type),
        None => false,
    }
}

/// Whether a statement begins with a token of this kind.
pub fn is_statement_start(terminal: Terminal, of_type: bool) -> bool
    ensures { result ≡ tables.first (parts.Of (names.Statement false of_type)) terminal }
{
    match terminal {
        Terminal::Const => true,
        Terminal::Show => true,
        Terminal::Defined => true,
        other => is_rule_start(other, of_type),
    }
}

/// Whether the next token begins a statement.
pub fn begins_statement(tokens: &Cursor<'_>, of_type: bool) -> bool
    ensures { Tells (call (names.Statement false of_type)) tokens.now result }
{
    match tokens.peek() {
        Some(terminal) => is_statement_start(terminal, of_type),
        None => false,
    }
}

// A number.
fn read_number(tokens: &mut Cursor<'_>) -> Result<u32, Stop>
    ensures read { Reads (Tok terminals.Number) IsNumber tokens.old tokens.new result }
    ensures shorter { length tokens.new ≤ length tokens.old }
{
    match tokens.number() {
        Some(number) => Ok(number),
        None => Err(Stop::Syntax),
    }
}

// A name and an arity.
fn read_signature(alloc: Global, tokens: &mut Cursor<'_>) -> Result<(Text, u32), Stop>
    ensures read { Reads signature IsSignature tokens.old tokens.new result }
    ensures shorter { length tokens.new ≤ length tokens.old }
{
    let name = tokens.name(alloc)?;
    tokens.expect(Terminal::Slash)?;
    let arity = read_number(tokens)?;
    Ok((name, arity))
}

// A name and an arity, or nothing where no name comes next.
fn read_optional_signature(
    alloc: Global,
    tokens: &mut Cursor<'_>,
) -> Result<Option<(Text, u32)>, Stop>
    ensures read { Reads (opt signature) IsOptionalSignature tokens.old tokens.new result }
    ensures shorter { length tokens.new ≤ length tokens.old }
{
    if !begins_name(tokens) {
        return Ok(None);
    }
    let signature = read_signature(alloc, tokens)?;
    Ok(Some(signature))
}

// `#show name/arity.` or `#show.`
fn read_show(alloc: Global, tokens: &mut Cursor<'_>) -> Result<Statement, Stop>
    ensures read { Reads (call names.Show) IsStatement tokens.old tokens.new result }
    ensures shorter { length tokens.new ≤ length tokens.old }
{
    tokens.expect(Terminal::Show)?;
    let shown = read_optional_signature(alloc, tokens)?;
    tokens.expect(Terminal::Dot)?;
    Ok(Statement::Show(shown))
}

// `#defined name/arity.`
fn read_defined(alloc: Global, tokens: &mut Cursor<'_>) -> Result<Statement, Stop>
    ensures read { Reads (call names.Defined) IsStatement tokens.old tokens.new result }
    ensures shorter { length tokens.new ≤ length tokens.old }
{
    tokens.expect(Terminal::Defined)?;
    let (name, arity) = read_signature(alloc, tokens)?;
    tokens.expect(Terminal::Dot)?;
    Ok(Statement::Defined(name, arity))
}

// What may stand for a constant: a number, the opposite of one, a name or a string.
fn read_constant(alloc: Global, tokens: &mut Cursor<'_>) -> Result<Term, Stop>
    ensures read { Reads (call names.Constant) IsConstant tokens.old tokens.new result }
    ensures shorter { length tokens.new ≤ length tokens.old }
{
    if tokens.eat(Terminal::Minus) {
        let opposite = read_number(tokens)?;
        let number = Boxed::new(alloc, Term::Int(i64::from(opposite)))?;
        return Ok(Term::Minus(number));
    }
    if let Some(number) = tokens.number() {
        return Ok(Term::Int(i64::from(number)));
    }
    if begins_name(tokens) {
        let name = tokens.name(alloc)?;
        return Ok(Term::Const(name));
    }
    match tokens.quoted() {
        Some(quoted) => Ok(Term::Str(string(alloc, quoted)?)),
        None => Err(Stop::Syntax),
    }
}

// `#const name = value.`
fn read_const(alloc: Global, tokens: &mut Cursor<'_>) -> Result<Statement, Stop>
    ensures read { Reads (call names.Const) IsStatement tokens.old tokens.new result }
    ensures shorter { length tokens.new ≤ length tokens.old }
{
    let place = tokens.place();
    tokens.expect(Terminal::Const)?;
    let name = tokens.name(alloc)?;
    tokens.expect(Terminal::Equal)?;
    let value = read_constant(alloc, tokens)?;
    tokens.expect(Terminal::Dot)?;
    Ok(Statement::Const {
        file: place.file,
        at: place.at,
        name,
        value,
    })
}

/// A statement other than a preference statement and `#optimize`, in a type's part or not.
///
/// `Syntax` comes where the next token goes on with no such statement; `Memory` for want of memory alone.
pub fn read_statement(
    alloc: Global,
    tokens: &mut Cursor<'_>,
    of_type: bool,
) -> Result<Statement, Stop>
    ensures read { Reads (call (names.Statement false of_type)) IsStatement tokens.old tokens.new result }
    ensures shorter { length tokens.new ≤ length tokens.old }
{
    if begins_rule(tokens, of_type) {
        let rule = read_rule(alloc, tokens, of_type)?;
        return Ok(Statement::Rule(rule));
    }
    if tokens.sees(Terminal::Const) {
        return read_const(alloc, tokens);
    }
    if tokens.sees(Terminal::Show) {
        return read_show(alloc, tokens);
    }
    read_defined(alloc, tokens)
}
