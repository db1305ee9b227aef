// The first limit of a list of tokens.
ghost use Rattle.std.specs.Prelude.{◌≡◌, ◌<◌, IfOk, IfSome, drop, length};
ghost use Rattle.ap_lexemes.specs.Lexemes.{lexemes_of};
ghost use Rattle.ap_lexemes.specs.Limits.{first_limit, next_role};
ghost use Rattle.ap_lexemes.specs.Listing.{listed};

use crate::levels::Levels;
use crate::lexemes::Lexemes;
use crate::limit::LimitAt;
use crate::role::{Role, role_of};
use crate::terminals::terminal;
use std::alloc::{AllocError, Global};

/// The first limit that the tokens of a text go beyond, or nothing where they go beyond none. It looks at the tokens alone, and
/// says the same of every text that goes on behind the token after that limit. It fails for want of memory alone.
pub fn first_limit(alloc: Global, lexemes: Lexemes<'_>) -> Result<Option<LimitAt>, AllocError>
    ensures found { IfOk result (λ found. found ≡ first_limit (listed lexemes.entry)) }
    ensures within { IfOk result (λ found. IfSome found (λ limit. limit.index < length (listed lexemes.entry))) }
{
    let mut levels = Levels::new(alloc);
    let mut role = role_at(lexemes, 0);
    for index in 0..lexemes.len() {
        let next = role_at(lexemes, index + 1);
        if let Some(which) = levels.read(role, next)? {
            return Ok(Some(LimitAt { which, index }));
        }
        role = next;
    }
    Ok(None)
}

// The role of a token, or of the end of the text.
fn role_at(lexemes: Lexemes<'_>, index: usize) -> Role
    ensures { result ≡ next_role (lexemes_of lexemes.entry.text.now lexemes.entry.file (drop index lexemes.entry.tokens.now)) }
{
    match lexemes.tokens.get(index) {
        Some(token) => role_of(terminal(token.kind, token.spelling(lexemes.text))),
        None => Role::Other,
    }
}
