// What stands behind the first primary term of a term.
#![tactic(auto, using(literal_parse::proofs::Steps::no_memory))]

ghost use Rattle.std.specs.Prelude.{◌≡◌, length, ◌≤◌};
ghost use Rattle.grammar.specs.Form.{opt};
ghost use Rattle.grammar.specs.Form.Form.{Star};
ghost use Rattle.grammar.specs.Tables.{starts};
ghost use Rattle.ap_grammar.specs.Factored.{factor, range, summand, term_more, term_rest};
ghost use Rattle.ap_grammar.specs.Tables.{tables};
ghost use Rattle.literal_parse.specs.Reads.{Reads, Tells};
ghost use Rattle.pref_parse.specs.Operators.{Operates};

use ap_grammar::Terminal;
use ap_syntax::Term;
use literal_parse::{Cursor, Stop, product_sign, read_product, read_sum, read_unary, sum_sign};
use sqlite_items::Boxed;
use std::alloc::Global;

// Whether a token of this kind goes on with a term behind its first primary term.
fn is_operator(terminal: Terminal) -> bool
    ensures { result ≡ starts tables term_more terminal }
{
    matches!(
        terminal,
        Terminal::Times
            | Terminal::Slash
            | Terminal::Backslash
            | Terminal::Plus
            | Terminal::Minus
            | Terminal::Dots
    )
}

/// Whether the next token goes on with a term behind its first primary term: it is `*`, `/`, `\`, `+`, `-` or `..`. Where no
/// token is left it is not. It never fails.
pub fn begins_operator(tokens: &Cursor<'_>) -> bool
    ensures { Tells term_more tokens.now result }
{
    match tokens.peek() {
        Some(terminal) => is_operator(terminal),
        None => false,
    }
}

// The factors behind the first one.
fn read_factors(alloc: Global, tokens: &mut Cursor<'_>, first: Term) -> Result<Term, Stop>
    ensures read { Reads (Star factor) (Operates first) tokens.old tokens.new result }
    ensures shorter { length tokens.new ≤ length tokens.old }
{
    let mut product = first;
    'signs: while let Some(op) = product_sign(tokens) {
        let next = read_unary(alloc, tokens)?;
        let left = Boxed::new(alloc, product)?;
        let right = next.boxed(alloc)?;
        product = Term::Product(left, op, right);
    }
    Ok(product)
}

// The summands behind the first one.
fn read_summands(alloc: Global, tokens: &mut Cursor<'_>, first: Term) -> Result<Term, Stop>
    ensures read { Reads (Star summand) (Operates first) tokens.old tokens.new result }
    ensures shorter { length tokens.new ≤ length tokens.old }
{
    let mut sum = first;
    'signs: while let Some(op) = sum_sign(tokens) {
        let next = read_product(alloc, tokens)?;
        let left = Boxed::new(alloc, sum)?;
        let right = next.boxed(alloc)?;
        sum = Term::Sum(left, op, right);
    }
    Ok(sum)
}

// The end of an interval, or none.
fn read_range(alloc: Global, tokens: &mut Cursor<'_>, low: Term) -> Result<Term, Stop>
    ensures read { Reads (opt range) (Operates low) tokens.old tokens.new result }
    ensures shorter { length tokens.new ≤ length tokens.old }
{
    if !tokens.eat(Terminal::Dots) {
        return Ok(low);
    }
    let high = read_sum(alloc, tokens)?;
    let left = Boxed::new(alloc, low)?;
    let right = high.boxed(alloc)?;
    Ok(Term::Range(left, right))
}

/// The rest of a term behind its first primary term, joined to it. Where no operator comes next it is that term itself.
///
/// `Syntax` comes where the next token behind an operator goes on with no operand; `Memory` for want of memory alone.
pub fn read_term_rest(alloc: Global, tokens: &mut Cursor<'_>, first: Term) -> Result<Term, Stop>
    ensures read { Reads term_rest (Operates first) tokens.old tokens.new result }
    ensures shorter { length tokens.new ≤ length tokens.old }
{
    let product = read_factors(alloc, tokens, first)?;
    let sum = read_summands(alloc, tokens, product)?;
    read_range(alloc, tokens, sum)
}
