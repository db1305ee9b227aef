// From a text to its tokens.
ghost use Rattle.std.specs.Prelude.{◌≡◌, ℕ, ◌≤◌, All, IfErr, IfOk, IsErrAnd, List, MatchResult, length};
ghost use Rattle.ap_lex.specs.Faults.{HasCause, IsAt};
ghost use Rattle.ap_lex.specs.Places.{BeginsAt};
ghost use Rattle.ap_lex.specs.Tokens.{IsFault, IsToken, IsTokens, ReadsUpTo};
ghost use Rattle.ap_lex.specs.declared.token.Token.{Token as TokenSpec};

use crate::LexFault;
use crate::pieces::{Piece, piece_at};
use crate::token::Token;
use std::alloc::{AllocError, Global};

/// The most bytes that a text may have.
pub const MAX_BYTES: usize = 16_777_216;

/// The tokens of a text of at most `MAX_BYTES` bytes: at each place the longest one, with blanks and comments between them.
/// `At` names the first place where no token begins. An open string, and one with a wrong escape, has it at its first quote.
pub fn tokens(alloc: Global, text: &str) -> Result<Vec<Token>, LexFault>
    requires { length text.now ≤ MAX_BYTES }
    // These are the tokens of the text,
    ensures read { IfOk result (λ tokens. IsTokens text.now tokens.items) }
    ensures each { IfOk result (λ tokens. All (λ token. IsToken text.now token.kind token.from token.to) tokens.items) }
    // and no others are; a text that has tokens is refused for want of memory alone.
    ensures only { (others : List TokenSpec) → IsTokens text.now others → MatchResult result (λ tokens. tokens.items ≡ others) (λ fault. fault ≡ LexFault.Memory) }
    // `At` is the first place where no token begins,
    ensures at { IfErr result (HasCause text.now) }
    // and a text that has such a place is refused there, unless memory runs out.
    ensures first { (place : ℕ) → IsFault text.now place → IsErrAnd result (IsAt place) }
{
    let Ok((found, at)) = tokens_before_fault(alloc, text) else {
        return Err(LexFault::Memory);
    };
    if (at as usize) < text.len() {
        return Err(LexFault::At { at });
    }
    Ok(found)
}

/// A text reads in one way. So it has one list of tokens, or one first place where no token begins, and not both.
pub fn one_reading()
    ensures one { (text : List ℕ) (ts us : List TokenSpec) (at place : ℕ) → ReadsUpTo text ts at → ReadsUpTo text us place → (ts ≡ us) × (at ≡ place) }
    ensures whole { (text : List ℕ) (ts : List TokenSpec) → IsTokens text ts → ReadsUpTo text ts (length text) }
{}

/// The tokens of a text of at most `MAX_BYTES` bytes up to the first place where no token begins, and that place. It is the
/// length of the text where there is no such place.
pub fn tokens_before_fault(alloc: Global, text: &str) -> Result<(Vec<Token>, u32), AllocError>
    requires { length text.now ≤ MAX_BYTES }
    ensures read { IfOk result (λ found. ReadsUpTo text.now found.0.items found.1) }
    ensures each { IfOk result (λ found. All (λ token. IsToken text.now token.kind token.from token.to) found.0.items) }
{
    let bytes = text.as_bytes();
    let mut found = Vec::new(alloc);
    let mut at = 0;
    while let Some(piece) = piece_from(bytes, at) {
        match piece {
            Piece::Gap { len } => at += len,
            Piece::Token { kind, len } => {
                let token = Token {
                    kind,
                    from: at as u32,
                    to: (at + len) as u32,
                };
                found.push(token)?;
                at += len;
            }
        }
    }
    Ok((found, at as u32))
}

// The piece that begins at a place, or nothing where none does.
fn piece_from(text: &[u8], at: usize) -> Option<Piece>
    requires { at ≤ length text.now }
    ensures { BeginsAt text.now at result }
{
    piece_at(&text[at..])
}
