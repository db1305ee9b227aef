// Whole files.
ghost use Rattle.std.specs.Prelude.{◌≡◌, ◌≢◌, ◌≤◌, ℕ, Err, List, Result, length};
ghost use Rattle.ap_syntax.specs.declared.programs.Program.{Program as ProgramSpec};
ghost use Rattle.ap_lexemes.specs.declared.fault.ParseFault.{ParseFault as FaultSpec};
ghost use Rattle.ap_lexemes.specs.declared.fault.ParseFault.TheVariants as faults;
ghost use Rattle.pref_parse.specs.Readings.{IsReading};

use crate::sections::read_text;
use ap_lexemes::{ParseFault, tokenize};
use ap_parse::program;
use ap_syntax::{PartKind, Program};
use literal_parse::Cursor;
use std::alloc::Global;

/// The program of a whole file of at most 16,777,216 bytes, which may have preference statements and begins in the base part.
/// It leaves out each `#program` that opens the part already in force. `file` is the number of the file.
///
/// `Syntax`, `Unsupported` and `Limit` name the first fault: the first token with which no text goes on, a limit that stands
/// before it, or the place behind all tokens. `Memory` comes for want of memory alone.
pub fn parse_bytes(alloc: Global, bytes: &[u8], file: u32) -> Result<Program, ParseFault>
    requires { length bytes.now ≤ 16777216 }
    ensures { IsReading bytes.now file result }
{
    let tokenized = tokenize(alloc, bytes, file)?;
    let mut tokens = Cursor::new(tokenized.readable());
    let read = read_text(alloc, &mut tokens, false);
    program(alloc, &tokenized, PartKind::Base, read, tokens.left())
}

/// The bytes of a file come to one answer, unless memory runs out.
pub fn one_reading()
    ensures { (bytes : List ℕ) (file : ℕ) (r s : Result ProgramSpec FaultSpec) → IsReading bytes file r → IsReading bytes file s → r ≢ Err faults.Memory → s ≢ Err faults.Memory → r ≡ s }
{}
