// The tokens of a text with the first limit that they go beyond.
ghost use Rattle.std.specs.Prelude.{◌≡◌, ◌<◌, All, IfSome, length};
ghost use Rattle.std.proofs.Props.{props};
ghost use Rattle.ap_lex.specs.Tokens.{IsToken};
ghost use Rattle.ap_lexemes.specs.Lexemes.{lexemes_of};
ghost use Rattle.ap_lexemes.specs.Limits.{first_limit};

use crate::limit::LimitAt;
use ap_lex::Token;

/// The tokens of a text up to the first place where none begins, and the first limit that they go beyond.
#[derive(Debug, Drop)]
pub struct Tokenized<'a> {
    /// The text.
    pub text: &'a str,
    /// Its tokens, in the order of the text.
    pub tokens: Vec<Token>,
    /// The number of its file.
    pub file: u32,
    /// The place behind them: the first byte at which no token begins, or the end of the text.
    pub end: u32,
    /// Whether bytes are left there.
    pub is_cut: bool,
    /// The first limit that the tokens go beyond.
    pub limit: Option<LimitAt>,
    ghost each: { All (λ token. IsToken text.now token.kind token.from token.to) tokens.items } by { Prim.hlevel props },
    ghost first: { limit ≡ first_limit (lexemes_of text.now file tokens.items) },
    ghost within: { IfSome limit (λ l. l.index < length tokens.items) } by { Prim.hlevel props },
}
