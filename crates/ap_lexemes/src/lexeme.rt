// Tokens as the grammar sees them.
ghost use Rattle.std.specs.Prelude.{◌≡◌};
ghost use Rattle.ap_grammar.specs.Lexemes.{decimal};
ghost use Rattle.ap_grammar.specs.declared.terminals.Terminal.TheVariants.{Number, String};
ghost use Rattle.ap_lexemes.specs.Quotes.{BeginsWithQuote};

use ap_grammar::Terminal;

/// A token with its terminal, its characters and its place.
#[derive(Clone, Copy, Debug)]
pub struct Lexeme<'a> {
    /// Its characters, as they stand in the text: a string with its quotes and its escapes.
    pub spelling: &'a str,
    /// The number that it writes, if its terminal is `Number`; else the field says nothing.
    pub number: u32,
    /// The number of its file, as the caller counts files.
    pub file: u32,
    /// The byte of the text, from 0, at which it begins.
    pub at: u32,
    /// Its kind in the grammar.
    pub terminal: Terminal,
    ghost value: { terminal ≡ Number → number ≡ decimal spelling.now },
    ghost quoted: { terminal ≡ String → BeginsWithQuote spelling.now },
}
