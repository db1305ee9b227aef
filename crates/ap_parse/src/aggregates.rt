// Aggregates.
#![tactic(auto, using(literal_parse::proofs::Steps::no_memory))]

ghost use Rattle.std.specs.Prelude.{◌≡◌, ◌∷◌, [], length, ◌≤◌};
ghost use Rattle.grammar.specs.Form.{◌∣◌, opt};
ghost use Rattle.grammar.specs.Form.Form.{Tok};
ghost use Rattle.ap_grammar.specs.declared.terminals.Terminal.TheVariants.{Count, Semicolon, Sum};
ghost use Rattle.ap_grammar.specs.Grammar.{Name as names};
ghost use Rattle.ap_grammar.specs.Factored.{Part as parts, aggregate_form, call, many};
ghost use Rattle.ap_grammar.specs.Tables.{tables};
ghost use Rattle.ap_parse.specs.Aggregates.{IsAggElement, IsAggElements, IsAggregate, IsFunction, braced};
ghost use Rattle.literal_parse.specs.Reads.{Reads, Tells};

use crate::guards::read_optional_guard;
use ap_grammar::Terminal;
use ap_syntax::{AggElement, Function, Guard, fitted};
use literal_parse::{Cursor, Stop, is_term_start, read_optional_condition, read_terms};
use sqlite_items::{Boxed, Items};
use std::alloc::Global;

/// An aggregate with the guard behind it.
#[derive(Debug, Drop)]
pub struct Aggregate {
    /// What is computed.
    pub function: Function,
    /// The elements between the braces.
    pub elements: Items<AggElement>,
    /// The guard behind the braces.
    pub right: Option<Boxed<Guard>>,
}

// Whether the next token begins an element of an aggregate.
fn begins_element(tokens: &Cursor<'_>) -> bool
    ensures { Tells (call names.AggElement) tokens.now result }
{
    match tokens.peek() {
        Some(terminal) => is_term_start(terminal),
        None => false,
    }
}

// Whether an aggregate begins with a token of this kind.
fn is_aggregate_start(terminal: Terminal) -> bool
    ensures { result ≡ tables.first (parts.Of names.Aggregate) terminal }
{
    matches!(terminal, Terminal::Count | Terminal::Sum)
}

/// Whether the next token begins an aggregate.
pub fn begins_aggregate(tokens: &Cursor<'_>) -> bool
    ensures { Tells (call names.Aggregate) tokens.now result }
{
    match tokens.peek() {
        Some(terminal) => is_aggregate_start(terminal),
        None => false,
    }
}

// An element of an aggregate: terms with commas between them, and a condition or none.
fn read_element(alloc: Global, tokens: &mut Cursor<'_>) -> Result<AggElement, Stop>
    ensures read { Reads (call names.AggElement) IsAggElement tokens.old tokens.new result }
    ensures shorter { length tokens.new ≤ length tokens.old }
{
    let terms = read_terms(alloc, tokens, Vec::new(alloc))?;
    let condition = read_optional_condition(alloc, tokens)?;
    Ok(AggElement { terms, condition })
}

// One element or more, with semicolons between them.
fn read_elements(alloc: Global, tokens: &mut Cursor<'_>) -> Result<Items<AggElement>, Stop>
    ensures read { Reads (many (call names.AggElement) Semicolon) IsAggElements tokens.old tokens.new result }
    ensures shorter { length tokens.new ≤ length tokens.old }
{
    let first = read_element(alloc, tokens)?;
    let mut elements = Vec::new(alloc);
    elements.push(first)?;
    'semicolons: while tokens.eat(Terminal::Semicolon) {
        let next = read_element(alloc, tokens)?;
        elements.push(next)?;
    }
    Ok(fitted(elements))
}

// Elements with semicolons between them, or none.
fn read_optional_elements(alloc: Global, tokens: &mut Cursor<'_>) -> Result<Items<AggElement>, Stop>
    ensures read { Reads (opt (many (call names.AggElement) Semicolon)) IsAggElements tokens.old tokens.new result }
    ensures shorter { length tokens.new ≤ length tokens.old }
{
    if begins_element(tokens) {
        read_elements(alloc, tokens)
    } else {
        Ok(Items::new(alloc))
    }
}

// Elements in braces.
fn read_braced(alloc: Global, tokens: &mut Cursor<'_>) -> Result<Items<AggElement>, Stop>
    ensures read { Reads braced IsAggElements tokens.old tokens.new result }
    ensures shorter { length tokens.new ≤ length tokens.old }
{
    tokens.expect(Terminal::OpenBrace)?;
    let elements = read_optional_elements(alloc, tokens)?;
    tokens.expect(Terminal::CloseBrace)?;
    Ok(elements)
}

// `#count` or `#sum`.
fn read_function(tokens: &mut Cursor<'_>) -> Result<Function, Stop>
    ensures read { Reads (Tok Count ∣ Tok Sum) IsFunction tokens.old tokens.new result }
    ensures shorter { length tokens.new ≤ length tokens.old }
{
    if tokens.eat(Terminal::Count) {
        Ok(Function::Count)
    } else if tokens.eat(Terminal::Sum) {
        Ok(Function::Sum)
    } else {
        Err(Stop::Syntax)
    }
}

/// An aggregate, with a guard behind it or none.
///
/// `Syntax` comes where the next token goes on with no aggregate; `Memory` for want of memory alone.
pub fn read_aggregate(alloc: Global, tokens: &mut Cursor<'_>) -> Result<Aggregate, Stop>
    ensures read { Reads aggregate_form IsAggregate tokens.old tokens.new result }
    ensures shorter { length tokens.new ≤ length tokens.old }
{
    let function = read_function(tokens)?;
    let elements = read_braced(alloc, tokens)?;
    let right = read_optional_guard(alloc, tokens)?;
    Ok(Aggregate {
        function,
        elements,
        right,
    })
}
