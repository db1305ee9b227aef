// Ranks of elements.
#![tactic(auto, using(literal_parse::proofs::Steps::no_memory))]

ghost use Rattle.std.specs.Prelude.{◌≡◌, [], length, ◌≤◌};
ghost use Rattle.grammar.specs.Form.{opt};
ghost use Rattle.grammar.specs.Form.Form.{Star};
ghost use Rattle.grammar.specs.Tables.{starts};
ghost use Rattle.ap_grammar.specs.Grammar.{Name as names};
ghost use Rattle.ap_grammar.specs.Factored.{call, ranked_behind, weights_rest};
ghost use Rattle.ap_grammar.specs.Tables.{tables};
ghost use Rattle.literal_parse.specs.Reads.{Reads, Tells};
ghost use Rattle.pref_parse.specs.Mixed.{class_of, either};
ghost use Rattle.pref_parse.specs.Ranks.{IsRanked, IsRankedRest, IsTarget, IsWeighed, IsWeights, weight_item};

use crate::formulas::read_formula;
use crate::mixed::{Mixed, read_mixed};
use ap_grammar::Terminal;
use ap_syntax::{Atom, Formula, Ranked, Target, Term, fitted};
use literal_parse::{Cursor, Operand, Stop, read_term};
use sqlite_items::Items;
use std::alloc::Global;

// A rank without weights.
fn unweighed(alloc: Global, target: Target) -> Ranked
    ensures { result ≡ record { weights = []; target = target } }
{
    Ranked {
        weights: Items::new(alloc),
        target,
    }
}

/// A rank.
///
/// `Syntax` comes where the next token goes on with no rank; `Memory` for want of memory alone.
pub fn read_ranked(alloc: Global, tokens: &mut Cursor<'_>) -> Result<Ranked, Stop>
    ensures read { Reads (call names.Ranked) (IsRanked tokens.old) tokens.old tokens.new result }
    ensures shorter { length tokens.new ≤ length tokens.old }
{
    if tokens.eat(Terminal::Stars) {
        let name = tokens.name(alloc)?;
        return Ok(unweighed(alloc, Target::Name(name)));
    }
    let mixed = read_mixed(alloc, tokens)?;
    read_ranked_rest(alloc, tokens, mixed)
}

// What stands behind the first term or formula of a rank.
fn read_ranked_rest(alloc: Global, tokens: &mut Cursor<'_>, mixed: Mixed) -> Result<Ranked, Stop>
    ensures read { Reads (ranked_behind (class_of mixed)) (IsRankedRest mixed) tokens.old tokens.new result }
    ensures shorter { length tokens.new ≤ length tokens.old }
{
    match mixed {
        Mixed::Either(atom) => read_optional_weights(alloc, tokens, atom),
        Mixed::Formed(formula) => Ok(unweighed(alloc, Target::For(formula))),
        Mixed::Other(term) => read_weighed(alloc, tokens, term),
    }
}

// A rank that begins with an atom: with weights, of which the atom is the first, or without.
fn read_optional_weights(alloc: Global, tokens: &mut Cursor<'_>, atom: Atom) -> Result<Ranked, Stop>
    ensures read { Reads (opt weights_rest) (IsRankedRest (either atom)) tokens.old tokens.new result }
    ensures shorter { length tokens.new ≤ length tokens.old }
{
    if begins_weights(tokens) {
        let first = Operand::Bare(atom).into_term(alloc)?;
        read_weighed(alloc, tokens, first)
    } else {
        Ok(unweighed(alloc, Target::For(Formula::Atom(atom))))
    }
}

// Whether a token of this kind stands behind a weight.
fn is_weights_sign(terminal: Terminal) -> bool
    ensures { result ≡ starts tables weights_rest terminal }
{
    matches!(terminal, Terminal::Comma | Terminal::Weighs)
}

// Whether the next token makes a weight of what was read.
fn begins_weights(tokens: &Cursor<'_>) -> bool
    ensures { Tells weights_rest tokens.now result }
{
    match tokens.peek() {
        Some(terminal) => is_weights_sign(terminal),
        None => false,
    }
}

// A rank with weights, of which the first was read.
fn read_weighed(alloc: Global, tokens: &mut Cursor<'_>, first: Term) -> Result<Ranked, Stop>
    ensures read { Reads weights_rest (IsWeighed first) tokens.old tokens.new result }
    ensures shorter { length tokens.new ≤ length tokens.old }
{
    let weights = read_weights(alloc, tokens, first)?;
    tokens.expect(Terminal::Weighs)?;
    let target = read_target(alloc, tokens)?;
    Ok(Ranked { weights, target })
}

// The first weight, which was read, and all others.
fn read_weights(alloc: Global, tokens: &mut Cursor<'_>, first: Term) -> Result<Items<Term>, Stop>
    ensures read { Reads (Star weight_item) (IsWeights first) tokens.old tokens.new result }
    ensures shorter { length tokens.new ≤ length tokens.old }
{
    let mut weights = Vec::new(alloc);
    weights.push(first)?;
    'commas: while tokens.eat(Terminal::Comma) {
        let next = read_term(alloc, tokens)?;
        weights.push(next.into_term(alloc)?)?;
    }
    Ok(fitted(weights))
}

// What stands behind the weights: a formula, or the name of another preference statement.
fn read_target(alloc: Global, tokens: &mut Cursor<'_>) -> Result<Target, Stop>
    ensures read { Reads (call names.Target) (IsTarget tokens.old) tokens.old tokens.new result }
    ensures shorter { length tokens.new ≤ length tokens.old }
{
    if tokens.eat(Terminal::Stars) {
        let name = tokens.name(alloc)?;
        return Ok(Target::Name(name));
    }
    let formula = read_formula(alloc, tokens)?;
    Ok(Target::For(formula))
}
