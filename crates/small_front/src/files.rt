// The statements of several files.
ghost use Rattle.std.specs.Prelude.{◌≡◌, ◌++◌, ◌≤◌, ◌<◌, All, false, length, IfOk, IfErr};
ghost use Rattle.ap_base.specs.Readings.{bytes_of};
ghost use Rattle.small_front.specs.Files.{AreRead, apart, ends_in_type};
ghost use Rattle.small_front.specs.Stages.{ReadingCause, refusal_of};

use crate::fault::FrontFault;
use ap_lexemes::ParseFault;
use ap_parse::is_of_type;
use ap_syntax::{PartKind, Statement, Statements};
use pref_parse::parse_bytes;
use std::alloc::{AllocError, Global};

/// The refusal of a file with this fault.
fn refusal(file: u32, fault: ParseFault) -> FrontFault
    ensures { result ≡ refusal_of file fault }
{
    match fault {
        ParseFault::Memory => FrontFault::Memory,
        other => FrontFault::Reading { file, fault: other },
    }
}

/// Whether the part of a type is in force behind the statements of a file.
fn ends_in_type(statements: &[Statement]) -> bool
    ensures { result ≡ ends_in_type false statements.now }
{
    let mut of_type = false;
    for statement in statements {
        if let Statement::Part { part, .. } = statement {
            of_type = is_of_type(part);
        }
    }
    of_type
}

/// The statements of a file of these bytes, as they stand among those of others: a `#program base.` stands behind a
/// type's part.
fn apart(
    alloc: Global,
    file: u32,
    bytes: &[u8],
    mut statements: Statements,
) -> Result<Statements, AllocError>
    requires { length bytes.now ≤ 16777216 }
    ensures { IfOk result (λ all. all ≡ apart file (length bytes.now) statements) }
{
    if ends_in_type(statements.as_slice()) {
        let mut base = Vec::new(alloc);
        base.push(Statement::Part {
            file,
            at: bytes.len() as u32,
            part: PartKind::Base,
        })?;
        statements.append(Statements::fitted(base))?;
    }
    Ok(statements)
}

/// Some statements, and more behind them. Where there are none yet, what is more is taken as it is.
fn joined(mut statements: Statements, more: Statements) -> Result<Statements, AllocError>
    ensures { IfOk result (λ all. all ≡ statements ++ more) }
{
    if statements.as_slice().is_empty() {
        return Ok(more);
    }
    statements.append(more)?;
    Ok(statements)
}

/// The statements of all files, in order, those of each file apart from the others. `Reading` comes exactly for the
/// first file that is not the text of a program.
pub fn read_files(alloc: Global, files: &[Vec<u8>]) -> Result<Statements, FrontFault>
    requires sizes { All (λ file. length file.items ≤ 16777216) files.now }
    requires few { length files.now < 4294967295 }
    ensures read { IfOk result (AreRead 1 (bytes_of files.now)) }
    ensures fault { IfErr result (ReadingCause (bytes_of files.now)) }
{
    let mut statements = Statements::new(alloc);
    let mut number = 0;
    for file in files {
        number += 1;
        let bytes = file.as_slice();
        match parse_bytes(alloc, bytes, number) {
            Ok(program) => {
                let next = apart(alloc, number, bytes, program.statements)?;
                statements = joined(statements, next)?;
            }
            Err(fault) => return Err(refusal(number, fault)),
        }
    }
    Ok(statements)
}
