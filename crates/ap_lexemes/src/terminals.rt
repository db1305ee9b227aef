// Which terminal of the grammar a token is.
ghost use Rattle.std.specs.Prelude.{◌≡◌};
ghost use Rattle.ap_lexemes.specs.Terminals.{directives, signs, spelled, spelled_in, terminal_of, words};

use ap_grammar::Terminal;
use ap_lex::Kind;

// A spelling and its terminal.
type Row = (&'static str, Terminal);

const WORDS: [Row; 2] = [
    ("base", Terminal::Base),
    ("preference", Terminal::Preference),
];

const DIRECTIVES: [Row; 8] = [
    ("#const", Terminal::Const),
    ("#show", Terminal::Show),
    ("#defined", Terminal::Defined),
    ("#program", Terminal::Program),
    ("#preference", Terminal::Statement),
    ("#optimize", Terminal::Optimize),
    ("#count", Terminal::Count),
    ("#sum", Terminal::Sum),
];

const SIGNS: [Row; 28] = [
    (".", Terminal::Dot),
    (",", Terminal::Comma),
    (";", Terminal::Semicolon),
    (":", Terminal::Colon),
    (":-", Terminal::If),
    ("::", Terminal::Weighs),
    ("(", Terminal::Open),
    (")", Terminal::Close),
    ("{", Terminal::OpenBrace),
    ("}", Terminal::CloseBrace),
    ("=", Terminal::Equal),
    ("==", Terminal::Same),
    ("!=", Terminal::Unequal),
    ("<", Terminal::Less),
    ("<=", Terminal::AtMost),
    (">", Terminal::Greater),
    (">=", Terminal::AtLeast),
    ("+", Terminal::Plus),
    ("-", Terminal::Minus),
    ("*", Terminal::Times),
    ("**", Terminal::Stars),
    ("/", Terminal::Slash),
    ("\\", Terminal::Backslash),
    ("..", Terminal::Dots),
    (">>", Terminal::Better),
    ("||", Terminal::Bars),
    ("&", Terminal::And),
    ("|", Terminal::Or),
];

/// The terminal of a token, by its kind and its characters.
pub fn terminal(kind: Kind, spelling: &str) -> Terminal
    ensures { result ≡ terminal_of kind spelling.now }
{
    match kind {
        Kind::Num => Terminal::Number,
        Kind::Ident => spelled(&WORDS, spelling, Terminal::Word),
        Kind::Not => Terminal::Not,
        Kind::Var => Terminal::Variable,
        Kind::Any => Terminal::Any,
        Kind::Str => Terminal::String,
        Kind::Directive => spelled(&DIRECTIVES, spelling, Terminal::Stray),
        Kind::Sign => spelled(&SIGNS, spelling, Terminal::Stray),
    }
}

// The terminal of this spelling in a table, or another one where no row has it.
fn spelled(rows: &[Row], spelling: &str, other: Terminal) -> Terminal
    ensures { result ≡ spelled_in rows.now spelling.now other }
{
    for (text, terminal) in rows {
        if *text == spelling {
            return *terminal;
        }
    }
    other
}
