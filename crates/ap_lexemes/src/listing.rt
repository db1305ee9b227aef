// From tokens of a text to tokens of the grammar.
ghost use Rattle.std.specs.Prelude.{◌≡◌, ◌<◌, ◌≤◌, ◌^◌, All, IsTrue, drop, length, slice_get, take};
ghost use Rattle.std.specs.List.{list_all};
ghost use Rattle.std.specs.Option.{option_map};
ghost use Rattle.ap_grammar.specs.Lexemes.{decimal};
ghost use Rattle.ap_lex.specs.Bytes.{is_digit};
ghost use Rattle.ap_lex.specs.Tokens.{IsToken};
ghost use Rattle.ap_lexemes.specs.Lexemes.{lexeme_at, lexeme_of, lexemes_of};
ghost use Rattle.ap_lexemes.specs.Listing.{listed};
ghost use Rattle.ap_lexemes.specs.Texts.{place_of};

use crate::lexeme::Lexeme;
use crate::lexemes::Lexemes;
use crate::terminals::terminal;
use ap_lex::{Kind, Token};

impl<'a> Lexemes<'a> {
    /// These tokens of a text, of which each must be a token at its place. `file` is the number of its file. It never fails.
    pub fn new(text: &'a str, tokens: &'a [Token], file: u32) -> Lexemes<'a>
        requires { All (λ token. IsToken text.now token.kind token.from token.to) tokens.now }
        ensures { listed result ≡ lexemes_of text.now file tokens.now }
    {
        Lexemes { text, tokens, file }
    }

    /// How many tokens there are.
    pub fn len(self) -> usize
        ensures { result ≡ length (listed self.entry) }
    {
        self.tokens.len()
    }

    /// The token of this number, from 0, if there are so many.
    pub fn get(self, index: usize) -> Option<Lexeme<'a>>
        ensures { option_map lexeme_of result ≡ slice_get (listed self.entry) index }
    {
        match self.tokens.get(index) {
            Some(token) => Some(lexeme(self.text, *token, self.file)),
            None => None,
        }
    }

    // The place of the token of this number.
    pub(crate) fn at(self, index: usize) -> u32
        requires { index < length (listed self) }
        ensures { result ≡ place_of (listed self.entry) index }
    {
        self.tokens[index].from
    }

    /// So many of them, from the first one on. There must be so many.
    pub fn front(self, count: usize) -> Lexemes<'a>
        requires { count ≤ length (listed self) }
        ensures { listed result ≡ take count (listed self.entry) }
    {
        Lexemes::new(self.text, &self.tokens[..count], self.file)
    }

    /// Those behind the first one, if there is one.
    pub fn rest(self) -> Lexemes<'a>
        ensures { listed result ≡ drop 1 (listed self.entry) }
    {
        match self.tokens {
            [_, rest @ ..] => Lexemes::new(self.text, rest, self.file),
            [] => self,
        }
    }
}

// A token of a text.
fn lexeme<'a>(text: &'a str, token: Token, file: u32) -> Lexeme<'a>
    requires { IsToken text.now token.kind token.from token.to }
    ensures { lexeme_of result ≡ lexeme_at text.now file token }
{
    let spelling = token.spelling(text);
    let number = match token.kind {
        Kind::Num => number(spelling.as_bytes()),
        _ => 0,
    };
    Lexeme {
        spelling,
        number,
        file,
        at: token.from,
        terminal: terminal(token.kind, spelling),
    }
}

// The number that these digits write.
fn number(digits: &[u8]) -> u32
    requires digits { IsTrue (list_all is_digit digits.now) }
    requires fits { decimal digits.now < 2 ^ 32 }
    ensures { result ≡ decimal digits.now }
{
    let mut number = 0;
    for digit in digits {
        number = number * 10 + u32::from(*digit - b'0');
    }
    number
}
