// The tokens that are not read yet.
ghost use Rattle.std.specs.Prelude.{◌≡◌, ◌∷◌, [], length, ◌≤◌};
ghost use Rattle.grammar.specs.Fault.{next_kind};
ghost use Rattle.grammar.specs.Form.Form.{Tok};
ghost use Rattle.ap_grammar.specs.Grammar.{Name as names};
ghost use Rattle.ap_grammar.specs.Factored.{call, factored};
ghost use Rattle.ap_lexemes.specs.Listing.{listed};
ghost use Rattle.literal_parse.specs.Reads.{Reads, Eats, Holds, Names, Numbers, Quotes, Spells, Tells, behind, IsAny, IsName, IsPlace};

use crate::error::Stop;
use ap_grammar::Terminal;
use ap_lexemes::{Lexeme, Lexemes};
use ap_syntax::Text;
use std::alloc::Global;
use std::marker::Model;

/// The place of a token: the number of its file, and its first byte.
#[derive(Clone, Copy, Debug)]
pub struct Place {
    /// The number of its file.
    pub file: u32,
    /// The byte of the text, from 0, at which it begins.
    pub at: u32,
}

/// The tokens that are not read yet.
#[derive(Drop)]
pub struct Cursor<'a> {
    rest: Lexemes<'a>,
    // The first of them, which is looked at many times.
    next: Option<Lexeme<'a>>,
}

impl<'a> Model for Cursor<'a> {
    ghost use Rattle.std.specs.Prelude.{◌≡◌, List, slice_get};
    ghost use Rattle.std.specs.Option.{option_map};
    ghost use Rattle.ap_grammar.specs.Lexemes.{Lexeme};
    ghost use Rattle.ap_lexemes.specs.Lexemes.{lexeme_of};
    ghost use Rattle.ap_lexemes.specs.Listing.{listed};

    ghost Value = { List Lexeme };

    ghost view = { λ c. listed c.rest };

    ghost invariant = { λ c. option_map lexeme_of c.next ≡ slice_get (listed c.rest) 0 };
}

impl<'a> Cursor<'a> {
    /// All of these tokens.
    pub fn new(lexemes: Lexemes<'a>) -> Cursor<'a>
        ensures { result ≡ listed lexemes.entry }
    {
        Cursor {
            rest: lexemes,
            next: lexemes.get(0),
        }
    }

    /// How many tokens are left.
    pub fn left(&self) -> usize
        ensures { result ≡ length self.now }
    {
        self.rest.len()
    }

    /// The place of the next token. Where none is left it says nothing.
    pub fn place(&self) -> Place
        ensures { IsPlace self.now result }
    {
        match self.next {
            Some(token) => Place {
                file: token.file,
                at: token.at,
            },
            None => Place { file: 0, at: 0 },
        }
    }

    /// The kind of the next token, and nothing where none is left.
    pub fn peek(&self) -> Option<Terminal>
        ensures { result ≡ next_kind factored self.now }
    {
        match self.next {
            Some(token) => Some(token.terminal),
            None => None,
        }
    }

    /// Goes on behind the next token. Where none is left it stays there.
    pub fn advance(&mut self)
        ensures { self.new ≡ behind self.old }
    {
        *self = Cursor::new(self.rest.rest());
    }

    /// Whether a token of this kind comes next. No token is read.
    pub fn sees(&self, wanted: Terminal) -> bool
        ensures { Tells (Tok wanted) self.now result }
    {
        match self.next {
            Some(token) => token.terminal == wanted,
            None => false,
        }
    }

    // Reads a token of this kind, if one comes next.
    fn read(&mut self, wanted: Terminal) -> Option<Lexeme<'a>>
        ensures { Holds wanted self.old self.new result }
    {
        let Some(token) = self.next else {
            return None;
        };
        if token.terminal == wanted {
            self.advance();
            Some(token)
        } else {
            None
        }
    }

    /// Reads a token of this kind, if one comes next, and answers its characters. Where none does it answers nothing,
    /// and no token is read.
    pub fn take(&mut self, wanted: Terminal) -> Option<&'a str>
        ensures { Spells wanted self.old self.new result }
    {
        match self.read(wanted) {
            Some(token) => Some(token.spelling),
            None => None,
        }
    }

    /// Reads a number, if one comes next. Where none does it answers nothing, and no token is read.
    pub fn number(&mut self) -> Option<u32>
        ensures { Numbers self.old self.new result }
    {
        match self.read(Terminal::Number) {
            Some(token) => Some(token.number),
            None => None,
        }
    }

    /// Reads a string, if one comes next, and answers its characters with the quotes. Where none does it answers
    /// nothing, and no token is read.
    pub fn quoted(&mut self) -> Option<&'a str>
        ensures { Quotes self.old self.new result }
    {
        match self.read(Terminal::String) {
            Some(token) => Some(token.spelling),
            None => None,
        }
    }

    /// Reads a token of this kind, if one comes next, and tells whether one did. Where none does no token is read.
    pub fn eat(&mut self, wanted: Terminal) -> bool
        ensures { Eats wanted self.old self.new result }
    {
        match self.take(wanted) {
            Some(_) => true,
            None => false,
        }
    }

    /// Reads a token of this kind. `Syntax` comes where the next token is of another kind or none is left, and no token is
    /// read.
    pub fn expect(&mut self, wanted: Terminal) -> Result<(), Stop>
        ensures read { Reads (Tok wanted) IsAny self.old self.new result }
        ensures shorter { length self.new ≤ length self.old }
    {
        if self.eat(wanted) {
            Ok(())
        } else {
            Err(Stop::Syntax)
        }
    }

    // Reads a name, if one comes next.
    fn take_name(&mut self) -> Option<&'a str>
        ensures { Names self.old self.new result }
    {
        if let Some(name) = self.take(Terminal::Word) {
            return Some(name);
        }
        if let Some(name) = self.take(Terminal::Base) {
            return Some(name);
        }
        self.take(Terminal::Preference)
    }

    /// Reads a name: a word, `base` or `preference`.
    ///
    /// `Syntax` comes where none of these comes next; `Memory` for want of memory alone.
    pub fn name(&mut self, alloc: Global) -> Result<Text, Stop>
        ensures read { Reads (call names.Ident) (IsName self.old) self.old self.new result }
        ensures shorter { length self.new ≤ length self.old }
    {
        match self.take_name() {
            Some(name) => Ok(Text::new(alloc, name)?),
            None => Err(Stop::Syntax),
        }
    }
}
