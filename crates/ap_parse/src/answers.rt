// What tokens come to, by what reading them came to.
ghost use Rattle.std.specs.Prelude.{◌≡◌, ℕ, ◌≤◌, [], ◌∷◌, Bool, List, length};
ghost use Rattle.ap_grammar.specs.Factored.{call};
ghost use Rattle.ap_grammar.specs.Grammar.{Name as GrammarName};
ghost use Rattle.ap_grammar.specs.Lexemes.{Lexeme as LexemeSpec};
ghost use Rattle.ap_grammar.specs.Values.{Value};
ghost use Rattle.ap_lexemes.specs.Texts.{in_type};
ghost use Rattle.ap_lexemes.specs.Tokenizing.{IsTokenized, readable, tokens_of};
ghost use Rattle.ap_parse.specs.Openings.{is_of_type};
ghost use Rattle.literal_parse.specs.Reads.{Reads};
ghost use Rattle.ap_parse.specs.Sections.{IsProgram};
ghost use Rattle.ap_parse.specs.Texts.{IsAnswer, IsReading};

use crate::changes::changing;
use ap_lexemes::{ParseFault, Tokenized};
use ap_syntax::{PartKind, Program, Statements};
use literal_parse::Stop;
use std::alloc::Global;

/// What the tokens of a text come to, by what reading them up to the first limit came to and how many of those are left.
/// `of_type` tells whether the text begins in a type's part.
///
/// `Memory` comes where reading stopped for want of memory. `Syntax`, `Unsupported` and `Limit` name the fault at the next
/// token, or behind them all: they come where reading stopped there, and where it did not but a token, a limit or bytes are
/// left.
pub fn answer<T: Drop>(
    tokenized: &Tokenized<'_>,
    of_type: bool,
    read: Result<T, Stop>,
    left: usize,
) -> Result<T, ParseFault>
    requires { left ≤ length (readable (tokens_of tokenized.now)) }
    ensures { (n : GrammarName) (value : T → Value) (rest : List LexemeSpec) → in_type n ≡ of_type → left ≡ length rest → Reads (call n) (λ x vs. vs ≡ value x ∷ []) (readable (tokens_of tokenized.now)) rest read → IsAnswer value n (tokens_of tokenized.now) tokenized.now.end tokenized.now.is_cut result }
{
    match read {
        Ok(tree) => {
            if tokenized.is_read(left) {
                return Ok(tree);
            }
            Err(tokenized.fault(of_type, left))
        }
        Err(stop) => match stop {
            Stop::Syntax => Err(tokenized.fault(of_type, left)),
            Stop::Memory => Err(ParseFault::Memory),
        },
    }
}

/// Whether a part is that of a type.
pub fn is_of_type(part: &PartKind) -> bool
    ensures { result ≡ is_of_type part.now }
{
    match part {
        PartKind::Base => false,
        PartKind::Kind(_) => true,
    }
}

/// The program of a file that begins in a part, by what reading its tokens up to the first limit came to and how many of those
/// are left. It leaves out each `#program` that opens the part already in force.
///
/// The errors are those of `answer`, and `Memory` for want of memory.
pub fn program(
    alloc: Global,
    tokenized: &Tokenized<'_>,
    part: PartKind,
    read: Result<Statements, Stop>,
    left: usize,
) -> Result<Program, ParseFault>
    requires { left ≤ length (readable (tokens_of tokenized.now)) }
    ensures { (whole : Bool) (bytes : List ℕ) (file : ℕ) (rest : List LexemeSpec) → IsTokenized bytes file tokenized.now → left ≡ length rest → Reads (call (GrammarName.Text whole (is_of_type part))) IsProgram (readable (tokens_of tokenized.now)) rest read → IsReading whole part bytes file result }
{
    let all = answer(tokenized, is_of_type(&part), read, left)?;
    let statements = changing(alloc, part, all)?;
    Ok(Program { statements })
}
