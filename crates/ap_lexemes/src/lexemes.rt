// The tokens of a text, made when they are looked at.
ghost use Rattle.std.specs.Prelude.{All};
ghost use Rattle.std.proofs.Props.{props};
ghost use Rattle.ap_lex.specs.Tokens.{IsToken};

use ap_lex::Token;

/// The tokens of a text as the grammar sees them, in order. It borrows the text and its tokens, and each token is made when it
/// is looked at.
#[derive(Clone, Copy, Debug)]
pub struct Lexemes<'a> {
    // The text.
    pub(crate) text: &'a str,
    // Its tokens.
    pub(crate) tokens: &'a [Token],
    // The number of its file.
    pub(crate) file: u32,
    ghost each: { All (λ token. IsToken text.now token.kind token.from token.to) tokens.now } by { Prim.hlevel props },
}
