// What a text comes to, by where its reading stops.
ghost use Rattle.std.specs.Prelude.{◌≡◌, ℕ, ◌<◌, ◌≤◌, ◌++◌, Bool, Err, IfSome, List, drop, length, take};
ghost use Rattle.grammar.specs.Fault.{IsFault, IsText};
ghost use Rattle.ap_grammar.specs.Grammar.{Name as GrammarName, grammar};
ghost use Rattle.ap_grammar.specs.Lexemes.{Lexeme as LexemeSpec};
ghost use Rattle.ap_grammar.specs.Values.{Value};
ghost use Rattle.ap_lexemes.specs.Limits.{first_limit};
ghost use Rattle.ap_lexemes.specs.Listing.{listed};
ghost use Rattle.ap_lexemes.specs.Stops.{finished, last_fault, stopped, up_to};
ghost use Rattle.ap_lexemes.specs.Texts.{IsOutcome, fault_of, in_type};

use crate::construct::Construct;
use crate::fault::ParseFault;
use crate::lexemes::Lexemes;
use crate::limit::LimitAt;
use crate::naming::construct_of;

/// The tokens up to a limit, with that at which it stands, or all of them where there is none. The limit must stand at one of
/// the tokens.
pub fn up_to(lexemes: Lexemes<'_>, limit: Option<LimitAt>) -> Lexemes<'_>
    requires { IfSome limit (λ l. l.index < length (listed lexemes)) }
    ensures { listed result ≡ up_to limit (listed lexemes.entry) }
{
    match limit {
        Some(limit) => lexemes.front(limit.index + 1),
        None => lexemes,
    }
}

/// The fault behind all tokens up to a limit: `Limit` at the token of that limit, which must be one of the tokens, or else
/// `Syntax` at `end`, the place behind all tokens.
pub fn last_fault(lexemes: Lexemes<'_>, limit: Option<LimitAt>, end: u32) -> ParseFault
    requires { IfSome limit (λ l. l.index < length (listed lexemes)) }
    ensures { result ≡ last_fault limit (listed lexemes.entry) end }
{
    match limit {
        Some(limit) => ParseFault::Limit {
            which: limit.which,
            at: lexemes.at(limit.index),
        },
        None => ParseFault::Syntax { at: end },
    }
}

/// The fault of a text of which so many tokens were read, up to the first limit or before it, and the next token goes on with
/// no text. At that token it is `Unsupported` if a construct begins there that is not supported, and else `Syntax`. Where no
/// token is left before the limit it is the fault behind them all, as `last_fault` has it. The limit must stand at one of the
/// tokens. `end` is the place behind all tokens.
pub fn fault_behind(
    of_type: bool,
    lexemes: Lexemes<'_>,
    limit: Option<LimitAt>,
    read: usize,
    end: u32,
) -> ParseFault
    requires limit { IfSome limit (λ l. l.index < length (listed lexemes)) }
    ensures { result ≡ stopped of_type limit (listed lexemes.entry) end (take read (up_to limit (listed lexemes.entry))) (drop read (up_to limit (listed lexemes.entry))) }
{
    let tokens = up_to(lexemes, limit);
    match tokens.get(read) {
        Some(token) => fault_of(construct_of(of_type, tokens.front(read), &token), token.at),
        None => last_fault(lexemes, limit, end),
    }
}

// The fault at a token, by the construct that it begins.
fn fault_of(construct: Option<Construct>, at: u32) -> ParseFault
    ensures { result ≡ fault_of construct at }
{
    match construct {
        Some(construct) => ParseFault::Unsupported { construct, at },
        None => ParseFault::Syntax { at },
    }
}

/// A reader of the tokens up to the first limit knows what the text comes to.
pub fn outcome_of_reading()
    // Where it stops, the fault is at the next token, or behind them all.
    ensures stop { (n : GrammarName) (xs : List LexemeSpec) (end : ℕ) (is_cut : Bool) (read rest : List LexemeSpec) → up_to (first_limit xs) xs ≡ read ++ rest → IsFault grammar n read rest → IsOutcome n xs end is_cut (Err (stopped (in_type n) (first_limit xs) xs end read rest)) }
    // Where they are a text, this is its value or the fault behind it.
    ensures whole { (n : GrammarName) (xs : List LexemeSpec) (end : ℕ) (is_cut : Bool) (v : Value) → IsText grammar n (up_to (first_limit xs) xs) v → IsOutcome n xs end is_cut (finished (first_limit xs) xs end is_cut v) }
{}
