// Tokens.
ghost use Rattle.std.specs.Prelude.{◌≡◌, slice_range};
ghost use Rattle.ap_lex.specs.Tokens.{IsToken};

/// What a token is.
#[derive(Clone, Copy, Debug, PartialEq, Eq)]
pub enum Kind {
    /// A number: `0`, or digits of which the first is not 0; at most 2,147,483,647. No digit follows it.
    Num,
    /// An identifier other than `not`: any number of `_`, a letter from a to z, and then letters, digits, `_` and `'`.
    Ident,
    /// The word `not`.
    Not,
    /// A variable: any number of `_`, a letter from A to Z, and then letters, digits, `_` and `'`.
    Var,
    /// One `_` that no letter, digit, `_` or `'` follows.
    Any,
    /// A string: a quote, characters other than a quote, a backslash and a line feed, or a backslash before a backslash, a
    /// quote or an `n`, and a quote.
    Str,
    /// `#` and one or more letters from a to z.
    Directive,
    /// A sign, as `.` or `:-`.
    Sign,
}

/// A token of a text, by the places of its bytes.
#[derive(Clone, Copy, Debug, PartialEq, Eq)]
pub struct Token {
    /// What it is.
    pub kind: Kind,
    /// The place of its first byte, from 0.
    pub from: u32,
    /// The place behind its last byte.
    pub to: u32,
}

impl Token {
    /// The characters of a token of this text.
    pub fn spelling<'a>(&self, text: &'a str) -> &'a str
        requires { IsToken text.now self.now.kind self.now.from self.now.to }
        ensures { result.now ≡ slice_range text.now self.now.from self.now.to }
    {
        &text[self.from as usize..self.to as usize]
    }
}
