// Whole texts, and single statements.
ghost use Rattle.std.specs.Prelude.{◌≡◌, ◌≢◌, ℕ, ◌<◌, ◌≤◌, ◌++◌, All, Bool, Err, List, Result, length};
ghost use Rattle.ap_lex.specs.Tokens.{IsToken, IsTokens};
ghost use Rattle.ap_lexemes.specs.Lexemes.{lexemes_of};
ghost use Rattle.ap_syntax.specs.declared.programs.PartKind.{PartKind as PartSpec};
ghost use Rattle.ap_syntax.specs.declared.programs.Program.{Program as ProgramSpec};
ghost use Rattle.ap_lexemes.specs.declared.fault.ParseFault.{ParseFault as FaultSpec};
ghost use Rattle.ap_lexemes.specs.declared.fault.ParseFault.TheVariants as faults;
ghost use Rattle.grammar.specs.Fault.{IsText};
ghost use Rattle.ap_grammar.specs.Grammar.{Name as GrammarName, grammar};
ghost use Rattle.ap_grammar.specs.Lexemes.{Lexeme as LexemeSpec};
ghost use Rattle.ap_grammar.specs.Values.{Value};
ghost use Rattle.ap_lexemes.specs.Tokenizing.{tokens_of};
ghost use Rattle.ap_parse.specs.Texts.{IsAnswer, IsParsed, IsStatementAt, is_dot, statement_len, statement_of};

use crate::answers::{answer, is_of_type, program};
use crate::openings::read_one;
use crate::sections::read_text;
use ap_grammar::Terminal;
use ap_lex::Token;
use ap_lexemes::{ParseFault, Tokenized, terminal, tokenize};
use ap_syntax::{PartKind, Program, Statement};
use literal_parse::Cursor;
use std::alloc::Global;

/// The program of a text of at most 16,777,216 bytes without preference statements, which begins in this part. A `#preference`
/// and an `#optimize` are faults of syntax. It leaves out each `#program` that opens the part already in force. The number of
/// its file is 0.
///
/// `Syntax`, `Unsupported` and `Limit` name the first fault, by the rules of this crate's README; `Memory` comes for want of
/// memory alone.
pub fn parse(alloc: Global, text: &str, part: PartKind) -> Result<Program, ParseFault>
    requires { length text.now ≤ 16777216 }
    ensures { IsParsed text.now part result }
{
    let tokenized = tokenize(alloc, text.as_bytes(), 0)?;
    let mut tokens = Cursor::new(tokenized.readable());
    let read = read_text(alloc, &mut tokens, is_of_type(&part));
    program(alloc, &tokenized, part, read, tokens.left())
}

/// A text comes to one answer, unless memory runs out.
pub fn one_parse()
    ensures { (text : List ℕ) (part : PartSpec) (r s : Result ProgramSpec FaultSpec) → IsParsed text part r → IsParsed text part s → r ≢ Err faults.Memory → s ≢ Err faults.Memory → r ≡ s }
{}

/// The statement other than `#preference` and `#optimize` that begins at a place among the tokens of a text, and the place
/// behind it. The tokens are all those of the text, which has at most 16,777,216 bytes. The number of its file is 0.
///
/// `Syntax`, `Unsupported` and `Limit` name the first fault from the place on, up to the first `.`; `Memory` comes for want of
/// memory alone.
pub fn statement(
    alloc: Global,
    tokens: &[Token],
    text: &str,
    from: usize,
    part: &PartKind,
) -> Result<(Statement, usize), ParseFault>
    requires fits { length text.now ≤ 16777216 }
    requires all { IsTokens text.now tokens.now }
    requires inside { from < length tokens.now }
    ensures { IsStatementAt text.now tokens.now from part.now result }
{
    let front = up_to_dot(text, &tokens[from..]);
    let copied = Vec::from_slice(alloc, front)?;
    let tokenized = Tokenized::new(alloc, text, copied, 0, text.len() as u32, false)?;
    let statement = read_single(alloc, &tokenized, is_of_type(part))?;
    Ok((statement, from + front.len()))
}

/// A statement ends at its first `.`: what stands behind it is no part of it, whatever it is.
pub fn one_front()
    ensures { (of_type : Bool) (read rest : List LexemeSpec) (v : Value) → IsText grammar (GrammarName.One of_type) read v → statement_of (read ++ rest) ≡ read }
{}

// The tokens up to the first `.`, with it, or all of them.
fn up_to_dot<'a>(text: &str, tokens: &'a [Token]) -> &'a [Token]
    requires { All (λ token. IsToken text.now token.kind token.from token.to) tokens.now }
    ensures front { lexemes_of text.now 0 result.now ≡ statement_of (lexemes_of text.now 0 tokens.now) }
    ensures len { length result.now ≡ statement_len (lexemes_of text.now 0 tokens.now) }
    ensures within { length result.now ≤ length tokens.now }
    ensures each { All (λ token. IsToken text.now token.kind token.from token.to) result.now }
{
    &tokens[..statement_len(text, tokens)]
}

// How many tokens there are up to the first `.`, with it, or in all.
fn statement_len(text: &str, tokens: &[Token]) -> usize
    requires { All (λ token. IsToken text.now token.kind token.from token.to) tokens.now }
    ensures len { result ≡ statement_len (lexemes_of text.now 0 tokens.now) }
    ensures within { result ≤ length tokens.now }
{
    for (index, token) in tokens.iter().enumerate() {
        if is_dot(terminal(token.kind, token.spelling(text))) {
            return index + 1;
        }
    }
    tokens.len()
}

// Whether a token is the `.` that ends a statement.
fn is_dot(terminal: Terminal) -> bool
    ensures { result ≡ is_dot terminal }
{
    match terminal {
        Terminal::Dot => true,
        _ => false,
    }
}

// What these tokens come to as a single statement.
fn read_single(
    alloc: Global,
    tokenized: &Tokenized<'_>,
    of_type: bool,
) -> Result<Statement, ParseFault>
    ensures { IsAnswer Value.statement (GrammarName.One of_type) (tokens_of tokenized.now) tokenized.now.end tokenized.now.is_cut result }
{
    let mut tokens = Cursor::new(tokenized.readable());
    let read = read_one(alloc, &mut tokens, of_type);
    answer(tokenized, of_type, read, tokens.left())
}
