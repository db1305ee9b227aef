// What a token does to the parentheses and the formulas of a statement.
ghost use Rattle.std.specs.Prelude.{◌≡◌};
ghost use Rattle.ap_lexemes.specs.Limits.{role_of};

use ap_grammar::Terminal;

/// What a token does to the parentheses and the formulas of a statement.
#[derive(Clone, Copy, Debug, PartialEq, Eq)]
pub enum Role {
    /// A name, as an atom begins.
    Name,
    Not,
    And,
    Or,
    Open,
    Close,
    Comma,
    Dot,
    /// Any other token, or the end of the text. It ends the formulas at its level.
    Other,
}

/// What a token of this kind does.
pub fn role_of(terminal: Terminal) -> Role
    ensures { result ≡ role_of terminal }
{
    match terminal {
        Terminal::Word => Role::Name,
        Terminal::Base => Role::Name,
        Terminal::Preference => Role::Name,
        Terminal::Not => Role::Not,
        Terminal::And => Role::And,
        Terminal::Or => Role::Or,
        Terminal::Open => Role::Open,
        Terminal::Close => Role::Close,
        Terminal::Comma => Role::Comma,
        Terminal::Dot => Role::Dot,
        _ => Role::Other,
    }
}
