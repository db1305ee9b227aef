// Bodies: literals, conditional literals and aggregates with separators between them.
#![tactic(auto, using(literal_parse::proofs::Steps::no_memory))]

ghost use Rattle.std.specs.Prelude.{◌≡◌, ◌∷◌, [], length, ◌≤◌};
ghost use Rattle.grammar.specs.Form.{◌∣◌};
ghost use Rattle.grammar.specs.Form.Form.{Call};
ghost use Rattle.ap_grammar.specs.Grammar.{Name as names};
ghost use Rattle.ap_grammar.specs.Factored.{Part as parts, aggregate_form, call, core_behind, negated_behind};
ghost use Rattle.ap_parse.specs.Bodies.{IsBehind, IsBody, IsCore, IsNegated, IsNegatedBehind, IsRelated, ReadsItem, Separates, kind_of};
ghost use Rattle.literal_parse.specs.Reads.{Reads};

use crate::aggregates::{Aggregate, begins_aggregate, read_aggregate};
use ap_grammar::Terminal;
use ap_syntax::{BodyItem, Guard, Literal, Rel, Term, fitted};
use literal_parse::{Cursor, Operand, Stop, read_condition, read_term, relation};
use sqlite_items::{Boxed, Items};
use std::alloc::Global;

// What an item of a body begins with, before it is known whether a condition stands behind it.
#[derive(Debug, Drop)]
enum Core {
    // A literal.
    Literal(Literal),
    // An aggregate.
    Aggregate {
        // Whether `not` stands before it.
        negated: bool,
        // The guard on the left.
        left: Option<Boxed<Guard>>,
        // The aggregate with the guard on the right.
        aggregate: Aggregate,
    },
}

// A literal or an aggregate.
fn read_core(alloc: Global, tokens: &mut Cursor<'_>) -> Result<Core, Stop>
    ensures read { Reads (Call parts.Core) (IsCore tokens.old) tokens.old tokens.new result }
    ensures shorter { length tokens.new ≤ length tokens.old }
{
    if tokens.eat(Terminal::Not) {
        return read_negated(alloc, tokens);
    }
    if begins_aggregate(tokens) {
        let aggregate = read_aggregate(alloc, tokens)?;
        return Ok(Core::Aggregate {
            negated: false,
            left: None,
            aggregate,
        });
    }
    let left = read_term(alloc, tokens)?;
    read_behind(alloc, tokens, left)
}

// What stands behind a term that begins an item.
fn read_behind(alloc: Global, tokens: &mut Cursor<'_>, left: Operand) -> Result<Core, Stop>
    ensures read { Reads (core_behind (kind_of left)) (IsBehind left) tokens.old tokens.new result }
    ensures shorter { length tokens.new ≤ length tokens.old }
{
    if let Some(rel) = relation(tokens) {
        let left = left.into_term(alloc)?;
        return read_related(alloc, tokens, left, rel);
    }
    if begins_aggregate(tokens) {
        let aggregate = read_aggregate(alloc, tokens)?;
        let term = left.into_term(alloc)?;
        let guard = Guard { rel: Rel::Le, term };
        return Ok(Core::Aggregate {
            negated: false,
            left: Some(Boxed::new(alloc, guard)?),
            aggregate,
        });
    }
    let bare = left.into_atom()?;
    Ok(Core::Literal(Literal::Pos(bare)))
}

// What stands behind a term and a relation.
fn read_related(alloc: Global, tokens: &mut Cursor<'_>, left: Term, rel: Rel) -> Result<Core, Stop>
    ensures read { Reads (aggregate_form ∣ call names.Term) (IsRelated left rel) tokens.old tokens.new result }
    ensures shorter { length tokens.new ≤ length tokens.old }
{
    if begins_aggregate(tokens) {
        let aggregate = read_aggregate(alloc, tokens)?;
        let guard = Guard { rel, term: left };
        return Ok(Core::Aggregate {
            negated: false,
            left: Some(Boxed::new(alloc, guard)?),
            aggregate,
        });
    }
    let right = read_term(alloc, tokens)?;
    let left = Boxed::new(alloc, left)?;
    let right = right.boxed(alloc)?;
    Ok(Core::Literal(Literal::Compare(left, rel, right)))
}

// What stands behind `not`.
fn read_negated(alloc: Global, tokens: &mut Cursor<'_>) -> Result<Core, Stop>
    ensures read { Reads (Call parts.Negated) IsNegated tokens.old tokens.new result }
    ensures shorter { length tokens.new ≤ length tokens.old }
{
    if begins_aggregate(tokens) {
        let aggregate = read_aggregate(alloc, tokens)?;
        return Ok(Core::Aggregate {
            negated: true,
            left: None,
            aggregate,
        });
    }
    let left = read_term(alloc, tokens)?;
    read_negated_behind(alloc, tokens, left)
}

// What stands behind `not` and a term.
fn read_negated_behind(alloc: Global, tokens: &mut Cursor<'_>, left: Operand) -> Result<Core, Stop>
    ensures read { Reads (negated_behind (kind_of left)) (IsNegatedBehind left) tokens.old tokens.new result }
    ensures shorter { length tokens.new ≤ length tokens.old }
{
    if let Some(rel) = relation(tokens) {
        let aggregate = read_aggregate(alloc, tokens)?;
        let term = left.into_term(alloc)?;
        let guard = Guard { rel, term };
        return Ok(Core::Aggregate {
            negated: true,
            left: Some(Boxed::new(alloc, guard)?),
            aggregate,
        });
    }
    if begins_aggregate(tokens) {
        let aggregate = read_aggregate(alloc, tokens)?;
        let term = left.into_term(alloc)?;
        let guard = Guard { rel: Rel::Le, term };
        return Ok(Core::Aggregate {
            negated: true,
            left: Some(Boxed::new(alloc, guard)?),
            aggregate,
        });
    }
    let bare = left.into_atom()?;
    Ok(Core::Literal(Literal::Not(bare)))
}

// An item of a body, with its condition where one stands behind a literal.
fn read_item(alloc: Global, tokens: &mut Cursor<'_>) -> Result<BodyItem, Stop>
    ensures read { ReadsItem tokens.old tokens.new result }
    ensures shorter { length tokens.new ≤ length tokens.old }
{
    let place = tokens.place();
    let literal = match read_core(alloc, tokens)? {
        Core::Literal(literal) => literal,
        Core::Aggregate {
            negated,
            left,
            aggregate,
        } => {
            return Ok(BodyItem::Agg {
                negated,
                left,
                function: aggregate.function,
                elements: Boxed::new(alloc, aggregate.elements)?,
                right: aggregate.right,
            });
        }
    };
    if !tokens.sees(Terminal::Colon) {
        return Ok(BodyItem::Plain(literal));
    }
    let condition = read_condition(alloc, tokens)?;
    Ok(BodyItem::All {
        at: place.at,
        literal: Boxed::new(alloc, literal)?,
        condition,
    })
}

// Reads the separator that parts an item from the next one, if it comes next. Behind a condition a comma is none.
fn separates(tokens: &mut Cursor<'_>, last: &BodyItem) -> bool
    ensures { Separates last.now tokens.old tokens.new result }
{
    if tokens.eat(Terminal::Semicolon) {
        return true;
    }
    match last {
        BodyItem::All { .. } => false,
        _ => tokens.eat(Terminal::Comma),
    }
}

/// A body: one item or more, with separators between them.
///
/// `Syntax` comes where the next token, at first or behind a separator, goes on with no item; `Memory` for want of memory
/// alone.
pub fn read_body(alloc: Global, tokens: &mut Cursor<'_>) -> Result<Items<BodyItem>, Stop>
    ensures read { Reads (call names.Body) IsBody tokens.old tokens.new result }
    ensures shorter { length tokens.new ≤ length tokens.old }
{
    let mut items = Vec::new(alloc);
    let mut last = read_item(alloc, tokens)?;
    'separators: while separates(tokens, &last) {
        items.push(last)?;
        last = read_item(alloc, tokens)?;
    }
    items.push(last)?;
    Ok(fitted(items))
}
