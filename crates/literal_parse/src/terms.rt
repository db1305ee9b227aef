// Terms.
#![tactic(auto, using(crate::proofs::Steps::no_memory))]

ghost use Rattle.std.specs.Prelude.{◌≡◌, ◌∷◌, [], ◌++◌, length, ◌≤◌};
ghost use Rattle.grammar.specs.Form.{opt};
ghost use Rattle.ap_grammar.specs.Grammar.{Name as names};
ghost use Rattle.ap_grammar.specs.Factored.{behind_comma, behind_open, call, many};
ghost use Rattle.ap_grammar.specs.declared.terminals.Terminal.TheVariants.{Comma};
ghost use Rattle.literal_parse.specs.Reads.{Reads};
ghost use Rattle.literal_parse.specs.Operands.{IsOperand};
ghost use Rattle.literal_parse.specs.Terms.{Factors, IsArguments, IsGroup, IsTerms, IsTuple, Signs, Simple};

use crate::cursor::Cursor;
use crate::error::Stop;
use crate::operand::Operand;
use crate::strings::string;
use ap_grammar::Terminal;
use ap_syntax::{Atom, ProductOp, SumOp, Term, Text, fitted};
use sqlite_items::{Boxed, Items};
use std::alloc::Global;

/// Reads `+` or `-`, if one comes next. Where neither does it answers nothing, and no token is read.
pub fn sum_sign(tokens: &mut Cursor<'_>) -> Option<SumOp>
    ensures { Signs tokens.old tokens.new result }
{
    if tokens.eat(Terminal::Plus) {
        Some(SumOp::Plus)
    } else if tokens.eat(Terminal::Minus) {
        Some(SumOp::Less)
    } else {
        None
    }
}

/// Reads `*`, `/` or `\`, if one comes next. Where none does it answers nothing, and no token is read.
pub fn product_sign(tokens: &mut Cursor<'_>) -> Option<ProductOp>
    ensures { Factors tokens.old tokens.new result }
{
    if tokens.eat(Terminal::Times) {
        Some(ProductOp::Times)
    } else if tokens.eat(Terminal::Slash) {
        Some(ProductOp::Over)
    } else if tokens.eat(Terminal::Backslash) {
        Some(ProductOp::Rest)
    } else {
        None
    }
}

/// A term, with an interval or without.
///
/// `Syntax` comes where the next token goes on with no term; `Memory` for want of memory alone.
#[cycle(terms)]
pub fn read_term(alloc: Global, tokens: &mut Cursor<'_>) -> Result<Operand, Stop>
    ensures read { Reads (call names.Term) (IsOperand tokens.old) tokens.old tokens.new result }
    ensures shorter { length tokens.new ≤ length tokens.old }
{
    let low = read_sum(alloc, tokens)?;
    if !tokens.eat(Terminal::Dots) {
        return Ok(low);
    }
    let high = read_sum(alloc, tokens)?;
    let left = low.boxed(alloc)?;
    let right = high.boxed(alloc)?;
    Ok(Operand::Other(Term::Range(left, right)))
}

/// A product, or several with `+` and `-` between them. Chains are nested to the left: `a-b-c` is `(a-b)-c`.
///
/// `Syntax` comes where the next token goes on with no sum; `Memory` for want of memory alone.
#[cycle(terms)]
pub fn read_sum(alloc: Global, tokens: &mut Cursor<'_>) -> Result<Operand, Stop>
    ensures read { Reads (call names.Sum) (IsOperand tokens.old) tokens.old tokens.new result }
    ensures shorter { length tokens.new ≤ length tokens.old }
{
    let mut sum = read_product(alloc, tokens)?;
    'signs: while let Some(op) = sum_sign(tokens) {
        let next = read_product(alloc, tokens)?;
        let left = sum.boxed(alloc)?;
        let right = next.boxed(alloc)?;
        sum = Operand::Other(Term::Sum(left, op, right));
    }
    Ok(sum)
}

/// A unary term, or several with `*`, `/` and `\` between them. Chains are nested to the left: `a/b/c` is `(a/b)/c`.
///
/// `Syntax` comes where the next token goes on with no product; `Memory` for want of memory alone.
#[cycle(terms)]
pub fn read_product(alloc: Global, tokens: &mut Cursor<'_>) -> Result<Operand, Stop>
    ensures read { Reads (call names.Product) (IsOperand tokens.old) tokens.old tokens.new result }
    ensures shorter { length tokens.new ≤ length tokens.old }
{
    let mut product = read_unary(alloc, tokens)?;
    'signs: while let Some(op) = product_sign(tokens) {
        let next = read_unary(alloc, tokens)?;
        let left = product.boxed(alloc)?;
        let right = next.boxed(alloc)?;
        product = Operand::Other(Term::Product(left, op, right));
    }
    Ok(product)
}

/// A primary term, with `-` before it or without.
///
/// `Syntax` comes where the next token goes on with no such term; `Memory` for want of memory alone.
#[cycle(terms)]
pub fn read_unary(alloc: Global, tokens: &mut Cursor<'_>) -> Result<Operand, Stop>
    ensures read { Reads (call names.Unary) (IsOperand tokens.old) tokens.old tokens.new result }
    ensures shorter { length tokens.new ≤ length tokens.old }
{
    if !tokens.eat(Terminal::Minus) {
        return read_primary(alloc, tokens);
    }
    let term = read_primary(alloc, tokens)?;
    let negated = term.boxed(alloc)?;
    Ok(Operand::Other(Term::Minus(negated)))
}

/// A number, a string, a variable, `_`, a name with arguments or without, a term in parentheses, or a tuple.
///
/// `Syntax` comes where the next token goes on with no such term; `Memory` for want of memory alone.
#[cycle(terms)]
pub fn read_primary(alloc: Global, tokens: &mut Cursor<'_>) -> Result<Operand, Stop>
    ensures read { Reads (call names.Primary) (IsOperand tokens.old) tokens.old tokens.new result }
    ensures shorter { length tokens.new ≤ length tokens.old }
{
    let simple = read_simple(alloc, tokens)?;
    if let Some(term) = simple {
        return Ok(Operand::Other(term));
    }
    if tokens.eat(Terminal::Open) {
        let term = read_group(alloc, tokens)?;
        return Ok(Operand::Other(term));
    }
    let name = tokens.name(alloc)?;
    let terms = read_arguments(alloc, tokens)?;
    Ok(Operand::Bare(Atom { name, terms }))
}

// What stands behind a parenthesis that no name precedes.
#[cycle(terms)]
fn read_group(alloc: Global, tokens: &mut Cursor<'_>) -> Result<Term, Stop>
    ensures read { Reads behind_open IsGroup tokens.old tokens.new result }
    ensures shorter { length tokens.new ≤ length tokens.old }
{
    if tokens.eat(Terminal::Close) {
        return Ok(Term::Tuple(Items::new(alloc)));
    }
    let first = read_term(alloc, tokens)?;
    if tokens.eat(Terminal::Close) {
        return Ok(first.into_term(alloc)?);
    }
    tokens.expect(Terminal::Comma)?;
    let first = first.into_term(alloc)?;
    read_tuple(alloc, tokens, first)
}

/// The tuple whose first member and its comma were read: what stands behind them, up to the `)`. `first` is that member.
///
/// `Syntax` comes where the next token goes on with no such tuple; `Memory` for want of memory alone.
#[cycle(terms)]
pub fn read_tuple(alloc: Global, tokens: &mut Cursor<'_>, first: Term) -> Result<Term, Stop>
    ensures read { Reads behind_comma (IsTuple first) tokens.old tokens.new result }
    ensures shorter { length tokens.new ≤ length tokens.old }
{
    let mut members = Vec::new(alloc);
    members.push(first)?;
    if tokens.eat(Terminal::Close) {
        return Ok(Term::Tuple(fitted(members)));
    }
    let all = read_terms(alloc, tokens, members)?;
    tokens.expect(Terminal::Close)?;
    Ok(Term::Tuple(all))
}

/// The arguments of a name in their parentheses. Where no `(` comes next the list is empty, and no token is read.
///
/// `Syntax` comes where behind a `(` the next token goes on with no arguments; `Memory` for want of memory alone.
#[cycle(terms)]
pub fn read_arguments(alloc: Global, tokens: &mut Cursor<'_>) -> Result<Items<Term>, Stop>
    ensures read { Reads (opt (call names.Arguments)) IsArguments tokens.old tokens.new result }
    ensures shorter { length tokens.new ≤ length tokens.old }
{
    if !tokens.eat(Terminal::Open) {
        return Ok(Items::new(alloc));
    }
    let terms = read_terms(alloc, tokens, Vec::new(alloc))?;
    tokens.expect(Terminal::Close)?;
    Ok(terms)
}

/// One term or more behind those that were read before, with commas between them: all of these in order.
///
/// `Syntax` comes where the next token, at first or behind a comma, goes on with no term; `Memory` for want of memory alone.
#[cycle(terms)]
pub fn read_terms(
    alloc: Global,
    tokens: &mut Cursor<'_>,
    mut terms: Vec<Term>,
) -> Result<Items<Term>, Stop>
    ensures read { Reads (many (call names.Term) Comma) (IsTerms terms.items) tokens.old tokens.new result }
    ensures shorter { length tokens.new ≤ length tokens.old }
{
    let first = read_term(alloc, tokens)?;
    terms.push(first.into_term(alloc)?)?;
    'commas: while tokens.eat(Terminal::Comma) {
        let next = read_term(alloc, tokens)?;
        terms.push(next.into_term(alloc)?)?;
    }
    Ok(fitted(terms))
}

// Reads a number, a string, a variable or `_`, if one comes next.
fn read_simple(alloc: Global, tokens: &mut Cursor<'_>) -> Result<Option<Term>, Stop>
    ensures read { Simple tokens.old tokens.new result }
    ensures shorter { length tokens.new ≤ length tokens.old }
{
    if let Some(number) = tokens.number() {
        return Ok(Some(Term::Int(i64::from(number))));
    }
    if let Some(quoted) = tokens.quoted() {
        let text = string(alloc, quoted)?;
        return Ok(Some(Term::Str(text)));
    }
    if let Some(spelling) = tokens.take(Terminal::Variable) {
        let name = Text::new(alloc, spelling)?;
        return Ok(Some(Term::Var(name)));
    }
    if tokens.eat(Terminal::Any) {
        Ok(Some(Term::Any))
    } else {
        Ok(None)
    }
}
