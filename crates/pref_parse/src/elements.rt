// Elements of preference statements.
#![tactic(auto, using(literal_parse::proofs::Steps::no_memory))]

ghost use Rattle.std.specs.Prelude.{length, ◌≤◌};
ghost use Rattle.grammar.specs.Form.{opt};
ghost use Rattle.ap_grammar.specs.declared.terminals.Terminal.TheVariants.{Better, Semicolon};
ghost use Rattle.ap_grammar.specs.Grammar.{Name as names};
ghost use Rattle.ap_grammar.specs.Factored.{call, many};
ghost use Rattle.literal_parse.specs.Literals.{IsOptionalCondition};
ghost use Rattle.literal_parse.specs.Reads.{Reads};
ghost use Rattle.pref_parse.specs.Elements.{IsElement, IsElements, IsOptionalGiven, IsRanks, in_braces};

use crate::ranked::read_ranked;
use ap_grammar::Terminal;
use ap_syntax::{Element, Literal, Ranked, fitted};
use literal_parse::{Cursor, Stop, read_literals};
use sqlite_items::Items;
use std::alloc::Global;

// The ranks of an element, the best one first.
fn read_ranks(alloc: Global, tokens: &mut Cursor<'_>) -> Result<Items<Ranked>, Stop>
    ensures read { Reads (many (call names.Ranked) Better) (IsRanks tokens.old) tokens.old tokens.new result }
    ensures shorter { length tokens.new ≤ length tokens.old }
{
    let first = read_ranked(alloc, tokens)?;
    let mut ranks = Vec::new(alloc);
    ranks.push(first)?;
    'signs: while tokens.eat(Terminal::Better) {
        let next = read_ranked(alloc, tokens)?;
        ranks.push(next)?;
    }
    Ok(fitted(ranks))
}

// What stands behind `||`, or none.
fn read_given(alloc: Global, tokens: &mut Cursor<'_>) -> Result<Option<Ranked>, Stop>
    ensures read { Reads (opt (call names.Given)) IsOptionalGiven tokens.old tokens.new result }
    ensures shorter { length tokens.new ≤ length tokens.old }
{
    if !tokens.eat(Terminal::Bars) {
        return Ok(None);
    }
    let given = read_ranked(alloc, tokens)?;
    Ok(Some(given))
}

// The domain behind a colon, or none.
fn read_domain(alloc: Global, tokens: &mut Cursor<'_>) -> Result<Items<Literal>, Stop>
    ensures read { Reads (opt (call names.Domain)) IsOptionalCondition tokens.old tokens.new result }
    ensures shorter { length tokens.new ≤ length tokens.old }
{
    if !tokens.eat(Terminal::Colon) {
        return Ok(Items::new(alloc));
    }
    read_literals(alloc, tokens)
}

// An element.
fn read_element(alloc: Global, tokens: &mut Cursor<'_>) -> Result<Element, Stop>
    ensures read { Reads (call names.Element) IsElement tokens.old tokens.new result }
    ensures shorter { length tokens.new ≤ length tokens.old }
{
    let place = tokens.place();
    let ranks = read_ranks(alloc, tokens)?;
    let given = read_given(alloc, tokens)?;
    let domain = read_domain(alloc, tokens)?;
    Ok(Element {
        at: place.at,
        ranks,
        given,
        domain,
    })
}

// One element or more, with semicolons between them.
fn read_row(alloc: Global, tokens: &mut Cursor<'_>) -> Result<Items<Element>, Stop>
    ensures read { Reads (many (call names.Element) Semicolon) IsElements tokens.old tokens.new result }
    ensures shorter { length tokens.new ≤ length tokens.old }
{
    let first = read_element(alloc, tokens)?;
    let mut elements = Vec::new(alloc);
    elements.push(first)?;
    'semicolons: while tokens.eat(Terminal::Semicolon) {
        let next = read_element(alloc, tokens)?;
        elements.push(next)?;
    }
    Ok(fitted(elements))
}

/// The elements of a statement, in their braces.
///
/// `Syntax` comes where the next token goes on with no such elements; `Memory` for want of memory alone.
pub fn read_elements(alloc: Global, tokens: &mut Cursor<'_>) -> Result<Items<Element>, Stop>
    ensures read { Reads in_braces IsElements tokens.old tokens.new result }
    ensures shorter { length tokens.new ≤ length tokens.old }
{
    tokens.expect(Terminal::OpenBrace)?;
    if tokens.eat(Terminal::CloseBrace) {
        return Ok(Items::new(alloc));
    }
    let elements = read_row(alloc, tokens)?;
    tokens.expect(Terminal::CloseBrace)?;
    Ok(elements)
}
