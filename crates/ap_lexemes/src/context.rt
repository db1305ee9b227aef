// What of the tokens before a token decides which construct it begins.
ghost use Rattle.std.specs.Prelude.{◌≡◌, ◌+◌, ◌^◌, ◌<◌};
ghost use Rattle.ap_lexemes.specs.Constructs.{begun, behind, in_force, preferring};

use ap_grammar::Terminal;

/// What stands behind some tokens of a text.
#[derive(Clone, Copy, Debug)]
pub struct Context {
    /// How many parentheses of the statement are open.
    pub parentheses: usize,
    /// Whether a type's part is in force.
    pub of_type: bool,
    /// Of a `#program` statement that has not ended, whether it opens a type's part.
    pub opening: Option<bool>,
}

impl Context {
    /// At the beginning of a statement, where no `#program` has begun.
    pub fn new(of_type: bool) -> Context
        ensures { result ≡ begun of_type }
    {
        Context {
            parentheses: 0,
            of_type,
            opening: None,
        }
    }

    /// Behind one more token.
    pub fn behind(self, token: Terminal) -> Context
        requires { self.parentheses + 1 < 2 ^ 64 }
        ensures { result ≡ behind self token }
    {
        match token {
            Terminal::Open => Context {
                parentheses: self.parentheses + 1,
                ..self
            },
            Terminal::Close => Context {
                parentheses: self.parentheses.saturating_sub(1),
                ..self
            },
            Terminal::Program => Context {
                opening: Some(false),
                ..self
            },
            Terminal::Preference => Context {
                opening: preferring(self.opening),
                ..self
            },
            Terminal::Dot => Context::new(in_force(self.opening, self.of_type)),
            _ => self,
        }
    }
}

// A `#program` statement with the word `preference` opens a type's part.
fn preferring(opening: Option<bool>) -> Option<bool>
    ensures { result ≡ preferring opening }
{
    match opening {
        Some(_) => Some(true),
        None => None,
    }
}

// The part in force behind a dot: that of a `#program` statement, if this is its dot.
fn in_force(opening: Option<bool>, of_type: bool) -> bool
    ensures { result ≡ in_force opening of_type }
{
    match opening {
        Some(opened) => opened,
        None => of_type,
    }
}
