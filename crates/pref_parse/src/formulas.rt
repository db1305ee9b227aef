// Formulas.
#![tactic(auto, using(literal_parse::proofs::Steps::no_memory))]

ghost use Rattle.std.specs.Prelude.{◌≡◌, length, ◌≤◌};
ghost use Rattle.grammar.specs.Form.{◌⨾◌};
ghost use Rattle.grammar.specs.Form.Form.{Tok, Star};
ghost use Rattle.grammar.specs.Tables.{starts};
ghost use Rattle.ap_grammar.specs.declared.terminals.Terminal.TheVariants.{And, Or};
ghost use Rattle.ap_grammar.specs.Grammar.{Name as names, conjunction_of, disjunction_of};
ghost use Rattle.ap_grammar.specs.Factored.{call, formula_rest};
ghost use Rattle.ap_grammar.specs.Tables.{tables};
ghost use Rattle.literal_parse.specs.Reads.{Reads, Tells};
ghost use Rattle.pref_parse.specs.Formulas.{IsConjunction, IsDisjunction, IsFormula, IsFormulaRest, IsUnit, unit};

use ap_grammar::Terminal;
use ap_syntax::{Formula, fitted};
use literal_parse::{Cursor, Stop, read_atom};
use sqlite_items::{Boxed, Items};
use std::alloc::Global;

// Formulas joined by `&`. One stands for itself.
fn conjunction(mut members: Items<Formula>) -> Formula
    ensures { result ≡ conjunction_of members }
{
    if members.len() == 1 {
        members.remove(0)
    } else {
        Formula::And(members)
    }
}

// Formulas joined by `|`. One stands for itself.
fn disjunction(mut members: Items<Formula>) -> Formula
    ensures { result ≡ disjunction_of members }
{
    if members.len() == 1 {
        members.remove(0)
    } else {
        Formula::Or(members)
    }
}

/// A formula.
///
/// `Syntax` comes where the next token goes on with no formula; `Memory` for want of memory alone.
#[cycle(formulas)]
pub fn read_formula(alloc: Global, tokens: &mut Cursor<'_>) -> Result<Formula, Stop>
    ensures read { Reads (call names.Formula) (IsFormula tokens.old) tokens.old tokens.new result }
    ensures shorter { length tokens.new ≤ length tokens.old }
{
    let first = read_conjunction(alloc, tokens)?;
    read_disjuncts(alloc, tokens, first)
}

/// What stands behind the first conjunction of a formula, joined to it. Where no `|` comes next it is that conjunction itself.
///
/// `Syntax` comes where the next token behind a `|` goes on with no conjunction; `Memory` for want of memory alone.
#[cycle(formulas)]
pub fn read_disjuncts(
    alloc: Global,
    tokens: &mut Cursor<'_>,
    first: Formula,
) -> Result<Formula, Stop>
    ensures read { Reads (Star (Tok Or ⨾ call names.Conjunction)) (IsDisjunction first) tokens.old tokens.new result }
    ensures shorter { length tokens.new ≤ length tokens.old }
{
    let mut members = Vec::new(alloc);
    members.push(first)?;
    'signs: while tokens.eat(Terminal::Or) {
        let next = read_conjunction(alloc, tokens)?;
        members.push(next)?;
    }
    Ok(disjunction(fitted(members)))
}

#[cycle(formulas)]
fn read_conjunction(alloc: Global, tokens: &mut Cursor<'_>) -> Result<Formula, Stop>
    ensures read { Reads (call names.Conjunction) (IsFormula tokens.old) tokens.old tokens.new result }
    ensures shorter { length tokens.new ≤ length tokens.old }
{
    let first = read_member(alloc, tokens)?;
    read_conjuncts(alloc, tokens, first)
}

/// What stands behind the first member of a conjunction, joined to it. Where no `&` comes next it is that member itself.
///
/// `Syntax` comes where the next token behind an `&` goes on with no member; `Memory` for want of memory alone.
#[cycle(formulas)]
pub fn read_conjuncts(
    alloc: Global,
    tokens: &mut Cursor<'_>,
    first: Formula,
) -> Result<Formula, Stop>
    ensures read { Reads (Star (Tok And ⨾ call names.Member)) (IsConjunction first) tokens.old tokens.new result }
    ensures shorter { length tokens.new ≤ length tokens.old }
{
    let mut members = Vec::new(alloc);
    members.push(first)?;
    'signs: while tokens.eat(Terminal::And) {
        let next = read_member(alloc, tokens)?;
        members.push(next)?;
    }
    Ok(conjunction(fitted(members)))
}

#[cycle(formulas)]
fn read_member(alloc: Global, tokens: &mut Cursor<'_>) -> Result<Formula, Stop>
    ensures read { Reads (call names.Member) (IsFormula tokens.old) tokens.old tokens.new result }
    ensures shorter { length tokens.new ≤ length tokens.old }
{
    if tokens.eat(Terminal::Not) {
        let negated = read_unit(alloc, tokens)?;
        return Ok(Formula::Not(Boxed::new(alloc, negated)?));
    }
    read_unit(alloc, tokens)
}

/// An atom, or a formula in parentheses.
///
/// `Syntax` comes where the next token goes on with neither; `Memory` for want of memory alone.
#[cycle(formulas)]
pub fn read_unit(alloc: Global, tokens: &mut Cursor<'_>) -> Result<Formula, Stop>
    ensures read { Reads unit (IsUnit tokens.old) tokens.old tokens.new result }
    ensures shorter { length tokens.new ≤ length tokens.old }
{
    if !tokens.eat(Terminal::Open) {
        let atom = read_atom(alloc, tokens)?;
        return Ok(Formula::Atom(atom));
    }
    let formula = read_formula(alloc, tokens)?;
    tokens.expect(Terminal::Close)?;
    Ok(formula)
}

// Whether a token of this kind goes on with a formula behind its first member.
fn is_connective(terminal: Terminal) -> bool
    ensures { result ≡ starts tables formula_rest terminal }
{
    matches!(terminal, Terminal::And | Terminal::Or)
}

/// Whether the next token goes on with a formula behind its first member.
pub fn begins_connective(tokens: &Cursor<'_>) -> bool
    ensures { Tells formula_rest tokens.now result }
{
    match tokens.peek() {
        Some(terminal) => is_connective(terminal),
        None => false,
    }
}

/// The rest of a formula behind its first member, joined to it. Where no connective comes next it is that member itself.
///
/// `Syntax` comes where the next token behind a connective goes on with no formula; `Memory` for want of memory alone.
pub fn read_formula_rest(
    alloc: Global,
    tokens: &mut Cursor<'_>,
    first: Formula,
) -> Result<Formula, Stop>
    ensures read { Reads formula_rest (IsFormulaRest first) tokens.old tokens.new result }
    ensures shorter { length tokens.new ≤ length tokens.old }
{
    let joined = read_conjuncts(alloc, tokens, first)?;
    read_disjuncts(alloc, tokens, joined)
}
