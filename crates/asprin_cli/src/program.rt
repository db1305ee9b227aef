// The program, from what it is called with.
ghost use Rattle.std.specs.Prelude.{◌≡◌, None, Some, drop, IfOk, IfSome};
ghost use Rattle.std.specs.Vec.Iter.{into_iter_items};
ghost use Rattle.ap_base.specs.Readings.{texts_of};
ghost use Rattle.asprin_cli.specs.Called.{words_behind};
ghost use Rattle.asprin_cli.specs.Runs.{IsRun};

use crate::{Ended, solve_run};
use ap_base::{Sink, Source, Status};
use std::alloc::{AllocError, Global};
use std::env::Args;
use std::io;
use std::io::ErrorKind;

/// The words behind the first, which is the program's own name.
fn words_in(alloc: Global, mut all: Args) -> Result<Vec<String>, AllocError>
    ensures { IfOk result (λ words. texts_of words.items ≡ drop 1 (texts_of (into_iter_items all))) }
{
    let _ = all.next();
    all.collect(alloc)
}

/// The words behind the program's own name, where the system answers all of them; none where one of them is no text.
/// It fails where memory ran out, here or in what the system answered.
fn words_behind(alloc: Global, all: io::Result<Args>) -> Result<Vec<String>, AllocError>
    ensures { IfOk result (λ words. words_behind all ≡ Some (texts_of words.items)) }
{
    match all {
        Ok(all) => words_in(alloc, all),
        Err(error) => match error.kind() {
            ErrorKind::InvalidData => Ok(Vec::new(alloc)),
            _ => Err(AllocError),
        },
    }
}

/// Does all that the program `asprin` does: a run with the words of `all`, as `std::env::args` answers them, behind
/// the program's own name. Where one of them is no text it is a run with no words, which ends with USAGE. Where
/// memory ran out for them, MEMORY comes, and nothing was read or written.
pub fn run<S: Source, O: Sink, C: Sink>(
    alloc: Global,
    all: io::Result<Args>,
    src: &mut S,
    out: &mut O,
    cert: &mut C,
) -> Ended
    ensures ran { IfSome (words_behind all) (λ words. IsRun
        words
        (record {
          tells = S.tells;
          held = S.held src.old;
          faults_before = S.faults src.old;
          faults_now = S.faults src.new;
          opens_before = S.opens src.old;
          opens_now = S.opens src.new;
          absent_before = S.absent src.old;
          absent_now = S.absent src.new;
        })
        (record {
          tells = O.tells;
          taken_before = O.taken out.old;
          taken_now = O.taken out.new;
          faults_before = O.faults out.old;
          faults_now = O.faults out.new;
        })
        result) }
    ensures no_words { words_behind all ≡ None → result ≡ Status.Memory }
    ensures unread { words_behind all ≡ None → src.new ≡ src.old }
    ensures unwritten { words_behind all ≡ None → out.new ≡ out.old }
    ensures certificate { cert.new ≡ cert.old }
{
    match words_behind(alloc, all) {
        Ok(words) => Ended::new(solve_run(alloc, &words, src, out, cert)),
        Err(AllocError) => Ended::new(Status::Memory),
    }
}
