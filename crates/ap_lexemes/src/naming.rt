// The name of the unsupported construct that a token begins.
ghost use Rattle.std.specs.Prelude.{◌≡◌};
ghost use Rattle.ap_lexemes.specs.Constructs.{construct_in, construct_of, constructs, context_of, rule_sign, semicolon, spelled, spelled_in};
ghost use Rattle.ap_lexemes.specs.Lexemes.{lexeme_of};
ghost use Rattle.ap_lexemes.specs.Listing.{listed};

use crate::construct::Construct;
use crate::context::Context;
use crate::lexeme::Lexeme;
use crate::lexemes::Lexemes;
use crate::terminals::terminal;
use ap_grammar::Terminal;

// A spelling and its construct.
type Row = (&'static str, Construct);

const CONSTRUCTS: [Row; 25] = [
    ("#external", Construct::External),
    ("#script", Construct::Script),
    ("#include", Construct::Include),
    ("#theory", Construct::Theory),
    ("&", Construct::Theory),
    ("#minimize", Construct::Minimize),
    ("#maximize", Construct::Minimize),
    (":~", Construct::Weak),
    ("|", Construct::Disjunction),
    ("{", Construct::Braces),
    ("#min", Construct::MinMax),
    ("#max", Construct::MinMax),
    ("#inf", Construct::Infimum),
    ("#sup", Construct::Infimum),
    ("#true", Construct::Truth),
    ("#false", Construct::Truth),
    ("#heuristic", Construct::Heuristic),
    ("#edge", Construct::Edge),
    ("#project", Construct::Project),
    ("@", Construct::Function),
    ("?", Construct::Bits),
    ("^", Construct::Bits),
    ("~", Construct::Bits),
    ("**", Construct::Power),
    ("%*", Construct::Comment),
];

/// The unsupported construct that a token begins, or nothing, where these tokens were read before it. It is told by the token's
/// characters, but for two signs: `;` is a pool where a parenthesis of its statement is open, and else a disjunction; `:-` is a
/// constraint while a type's part is in force, and else nothing. The part in force is that of the last `#program` statement
/// that has ended, or else the one in which the text begins.
pub fn construct_of(of_type: bool, read: Lexemes<'_>, token: &Lexeme<'_>) -> Option<Construct>
    ensures { result ≡ construct_of of_type (listed read.entry) (lexeme_of token.now) }
{
    match token.terminal {
        Terminal::Semicolon => Some(semicolon(context_of(of_type, read).parentheses)),
        Terminal::If => rule_sign(context_of(of_type, read).of_type),
        _ => spelled(&CONSTRUCTS, token.spelling),
    }
}

// What stands behind these tokens.
fn context_of(of_type: bool, read: Lexemes<'_>) -> Context
    ensures { result ≡ context_of of_type (listed read.entry) }
{
    let mut context = Context::new(of_type);
    for token in read.tokens {
        context = context.behind(terminal(token.kind, token.spelling(read.text)));
    }
    context
}

fn semicolon(parentheses: usize) -> Construct
    ensures { result ≡ semicolon parentheses }
{
    if parentheses > 0 {
        Construct::Pool
    } else {
        Construct::Disjunction
    }
}

fn rule_sign(of_type: bool) -> Option<Construct>
    ensures { result ≡ rule_sign of_type }
{
    if of_type {
        Some(Construct::Constraint)
    } else {
        None
    }
}

// The construct of this spelling in a table.
fn spelled(rows: &[Row], spelling: &str) -> Option<Construct>
    ensures { result ≡ spelled_in rows.now spelling.now }
{
    for (text, construct) in rows {
        if *text == spelling {
            return Some(*construct);
        }
    }
    None
}
