// The run.
ghost use Rattle.std.specs.Prelude.{◌≡◌, ◌≢◌, ◌≤◌, ◌++◌, All, length, false, true, IsTrue};
ghost use Rattle.ap_base.specs.Counts.{Rose};
ghost use Rattle.ap_base.specs.Fronts.{TookFront};
ghost use Rattle.ap_base.specs.Readings.{bytes_of, texts_of};
ghost use Rattle.asprin_cli.specs.Lines.{is_cut};
ghost use Rattle.asprin_cli.specs.Outcomes.{IsStatusOf, TextsEnd, TookPart, TookWhole};
ghost use Rattle.asprin_cli.specs.Runs.{IsRun};
ghost use Rattle.asprin_cli.specs.Stops.{stop_line, stop_status};

use crate::input::{optima_of, read_files};
use crate::listing::print_optima;
use crate::print::print_end;
use crate::{End, Stop};
use ap_base::{Sink, Source, Status};
use std::alloc::Global;

/// Prints why a run ends before its listing, and answers its status.
fn print_stop<O: Sink>(alloc: Global, stop: Stop, out: &mut O) -> Status
    ensures named { is_cut result ≡ false → result ≡ stop_status stop }
    ensures all { IsTrue O.tells → is_cut result ≡ false → O.taken out.new ≡ O.taken out.old ++ stop_line stop }
    ensures part { IsTrue O.tells → is_cut result ≡ true
        → TookFront (O.taken out.old) (O.taken out.new) (stop_line stop) }
    ensures kept { result ≢ Status.Sink → O.faults out.new ≡ O.faults out.old }
    ensures rose { result ≡ Status.Sink → Rose (O.faults out.old) (O.faults out.new) }
{
    match stop {
        Stop::Source(opened) => print_end(alloc, &End::Source(opened), out),
        Stop::Refused(refusal) => print_end(alloc, &End::Refused(refusal), out),
        Stop::Memory => Status::Memory,
    }
}

/// Prints what the texts of files come to: their refusal, or the listing of their optimal sets.
fn print_texts<O: Sink>(alloc: Global, files: &[Vec<u8>], out: &mut O) -> Status
    requires sizes { All (λ file. length file.items ≤ 16777216) files.now }
    requires few { length files.now ≤ 10000 }
    ensures whole { IsTrue O.tells → is_cut result ≡ false
        → TookWhole (TextsEnd (bytes_of files.now)) result (O.taken out.old) (O.taken out.new) }
    ensures part { IsTrue O.tells → is_cut result ≡ true
        → TookPart (TextsEnd (bytes_of files.now)) (O.taken out.old) (O.taken out.new) }
    ensures named { is_cut result ≡ false → IsStatusOf (TextsEnd (bytes_of files.now)) result }
    ensures optimum { result ≢ Status.NoOptimum }
    ensures not_usage { result ≢ Status.Usage }
    ensures not_source { result ≢ Status.Source }
    ensures kept { result ≢ Status.Sink → O.faults out.new ≡ O.faults out.old }
    ensures rose { result ≡ Status.Sink → Rose (O.faults out.old) (O.faults out.new) }
{
    match optima_of(alloc, files) {
        Ok(found) => print_optima(alloc, &found.optima, &found.shown, out),
        Err(stop) => print_stop(alloc, stop, out),
    }
}

/// Does all that the program `asprin` does with its words: reads the texts that they name, and prints the optimal
/// answer sets of all of them together in order, each once with its atoms that are shown, and a last line that names
/// the status.
///
/// The words are `--sorted -n 0 FILE..`, with at most 10,000 files. USAGE comes exactly where they are not; SOURCE
/// where the source failed; LIMIT where the files have more than 16,777,216 bytes together; SYNTAX, UNSUPPORTED or
/// LIMIT for the first file that is no text of the grammar; UNSUPPORTED for the first statement that is not of the
/// small language; NAMING for the first constant that is declared twice; LIMIT where the rules have more than 12
/// atoms, in this order. SINK comes exactly where the output failed, and MEMORY where memory ran out. After these two
/// nothing more is written. The certificate sink is not used.
pub fn solve_run<S: Source, O: Sink, C: Sink>(
    alloc: Global,
    words: &[String],
    src: &mut S,
    out: &mut O,
    cert: &mut C,
) -> Status
    ensures ran { IsRun
        (texts_of words.now)
        (record {
          tells = S.tells;
          held = S.held src.old;
          faults_before = S.faults src.old;
          faults_now = S.faults src.new;
          opens_before = S.opens src.old;
          opens_now = S.opens src.new;
          absent_before = S.absent src.old;
          absent_now = S.absent src.new;
        })
        (record {
          tells = O.tells;
          taken_before = O.taken out.old;
          taken_now = O.taken out.new;
          faults_before = O.faults out.old;
          faults_now = O.faults out.new;
        })
        result }
    ensures certificate { cert.new ≡ cert.old }
{
    match read_files(alloc, words, src) {
        Ok(files) => print_texts(alloc, &files, out),
        Err(stop) => print_stop(alloc, stop, out),
    }
}
