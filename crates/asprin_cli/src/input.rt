// From the words to the optimal sets of the texts that they name.
ghost use Rattle.std.specs.Prelude.{◌≡◌, ◌≤◌, ◌<◌, ◌↔◌, ℕ, List, All, None, length, IsTrue, IfOk, IfErr, OnOk};
ghost use Rattle.ap_base.specs.Counts.{counted};
ghost use Rattle.ap_base.specs.Readings.{AllHeld, bytes_of, texts_of};
ghost use Rattle.small_front.specs.Accepts.{FrontCause};
ghost use Rattle.small_front.specs.Files.{FirstFault};
ghost use Rattle.asprin_cli.specs.Given.{Texts, given_by};
ghost use Rattle.asprin_cli.specs.Listed.{AreOptimaOf};
ghost use Rattle.asprin_cli.specs.Stops.{ReadStop, TextsStop};
ghost use Rattle.asprin_cli.specs.Words.{asks_for, files_of};

use crate::words::read_words;
use crate::{Found, Refusal, Stop};
use ap_base::{ReadFault, Source, read_all};
use ap_lexemes::ParseFault;
use small_front::{FrontFault, accept};
use small_optima::{TrialFault, list_optima};
use std::alloc::Global;

/// The bytes of the files that the words name.
pub fn read_files<S: Source>(
    alloc: Global,
    words: &[String],
    src: &mut S,
) -> Result<Vec<Vec<u8>>, Stop>
    ensures texts { IsTrue S.tells → IfOk result
        (λ files. given_by (texts_of words.now) (S.held src.old) ≡ Texts (bytes_of files.items)) }
    ensures sizes { IfOk result (λ files. All (λ file. length file.items ≤ 16777216) files.items) }
    ensures few { IfOk result (λ files. length files.items ≤ 10000) }
    ensures kept { OnOk result (S.faults src.new ≡ S.faults src.old) }
    ensures usage { (files_of (texts_of words.now) ≡ None) ↔ (result ≡ Err (Stop.Refused Refusal.Usage)) }
    ensures stop { IfErr result (ReadStop S.tells (texts_of words.now) (S.held src.old)
        (S.faults src.old) (S.faults src.new) (S.opens src.old) (S.opens src.new)) }
    ensures opens { S.opens src.new ≤ counted (S.opens src.old) (length (asks_for (texts_of words.now))) }
    ensures absent { IsTrue S.tells → AllHeld (S.held src.old) (asks_for (texts_of words.now))
        → S.absent src.new ≡ S.absent src.old }
{
    let Some(names) = read_words(words) else {
        return Err(Stop::Refused(Refusal::Usage));
    };
    match read_all(alloc, names, src) {
        Ok(files) => Ok(files),
        Err(ReadFault::Source(opened)) => Err(Stop::Source(opened)),
        Err(ReadFault::Bytes) => Err(Stop::Refused(Refusal::Bytes)),
        Err(ReadFault::Memory) => Err(Stop::Memory),
    }
}

/// What the first fault of texts ends a run with.
fn stop_at(file: u32, fault: ParseFault) -> Stop
    ensures { (files : List (List ℕ)) → FirstFault 1 files file fault → TextsStop files result }
{
    match fault {
        ParseFault::Syntax { at } => Stop::Refused(Refusal::Syntax { file, at }),
        ParseFault::Unsupported { construct, at } => Stop::Refused(Refusal::Unsupported {
            file,
            at,
            construct,
        }),
        ParseFault::Limit { which, .. } => Stop::Refused(Refusal::Limit(which)),
        ParseFault::Memory => Stop::Memory,
    }
}

/// What a refusal of texts ends a run with.
fn stop_for(fault: FrontFault) -> Stop
    ensures { (files : List (List ℕ)) → FrontCause files fault → TextsStop files result }
{
    match fault {
        FrontFault::Reading { file, fault } => stop_at(file, fault),
        FrontFault::Later { file, at } => Stop::Refused(Refusal::Later { file, at }),
        FrontFault::ConstTwice { file, at } => Stop::Refused(Refusal::ConstTwice { file, at }),
        FrontFault::Memory => Stop::Memory,
    }
}

/// The optimal sets of the program that the texts of files come to, and which of their atoms are shown.
pub fn optima_of(alloc: Global, files: &[Vec<u8>]) -> Result<Found, Stop>
    requires sizes { All (λ file. length file.items ≤ 16777216) files.now }
    requires few { length files.now ≤ 10000 }
    ensures found { IfOk result (AreOptimaOf (bytes_of files.now)) }
    ensures stop { IfErr result (TextsStop (bytes_of files.now)) }
{
    let accepted = match accept(alloc, files) {
        Ok(accepted) => accepted,
        Err(fault) => return Err(stop_for(fault)),
    };
    match list_optima(alloc, &accepted.program) {
        Ok(optima) => Ok(Found {
            optima,
            shown: accepted.shown,
        }),
        Err(TrialFault::TooMany) => Err(Stop::Refused(Refusal::Trial)),
        Err(TrialFault::Memory) => Err(Stop::Memory),
    }
}
