// Printing the optimal sets.
ghost use Rattle.std.specs.Prelude.{◌≡◌, ◌≢◌, ◌++◌, false, true, IsTrue, length, map};
ghost use Rattle.ap_base.specs.Counts.{Rose};
ghost use Rattle.ap_base.specs.Fronts.{TookFront};
ghost use Rattle.asprin_cli.specs.Lines.{is_cut, line_of, numbered, status_of, text_of};
ghost use Rattle.asprin_cli.specs.Listed.{end_of, kept_line, kept_of, sets_in};
ghost use Rattle.asprin_cli.specs.declared.end.End.TheVariants as ends;

use crate::print::{print_end, print_set};
use crate::{End, Quit};
use ap_base::{Sink, Status};
use ap_syntax::Text;
use small_front::Shown;
use small_optima::Optima;
use sqlite_items::Items;
use std::alloc::Global;

/// Prints the lines of these sets, with the atoms that are shown, numbered from 1, and then that they are all.
fn print_sets<O: Sink>(alloc: Global, sets: &[Items<Text>], shown: &Shown, out: &mut O) -> Status
    ensures named { is_cut result ≡ false → result ≡ Status.Done }
    ensures all { IsTrue O.tells → is_cut result ≡ false → O.taken out.new
        ≡ O.taken out.old ++ (numbered (kept_line shown.now) 1 sets.now ++ line_of (ends.Done (length sets.now))) }
    ensures part { IsTrue O.tells → is_cut result ≡ true → TookFront (O.taken out.old) (O.taken out.new)
        (numbered (kept_line shown.now) 1 sets.now ++ line_of (ends.Done (length sets.now))) }
    ensures kept { result ≢ Status.Sink → O.faults out.new ≡ O.faults out.old }
    ensures rose { result ≡ Status.Sink → Rose (O.faults out.old) (O.faults out.new) }
{
    for (at, set) in sets.iter().enumerate() {
        match print_set(alloc, at + 1, set.as_slice(), shown, out) {
            Ok(()) => {}
            Err(Quit::Sink) => return Status::Sink,
            Err(Quit::Memory) => return Status::Memory,
        }
    }
    print_end(alloc, &End::Done(sets.len()), out)
}

/// Prints the listing of the optimal sets, with the atoms that are shown, and answers its status.
#[tactic(auto, using(crate::proofs::Showing::kept_lines))]
pub fn print_optima<O: Sink>(alloc: Global, optima: &Optima, shown: &Shown, out: &mut O) -> Status
    ensures named { is_cut result ≡ false → result ≡ status_of (end_of optima.now) }
    ensures all { IsTrue O.tells → is_cut result ≡ false → O.taken out.new
        ≡ O.taken out.old ++ text_of (map (kept_of shown.now) (sets_in optima.now)) (end_of optima.now) }
    ensures part { IsTrue O.tells → is_cut result ≡ true → TookFront (O.taken out.old) (O.taken out.new)
        (text_of (map (kept_of shown.now) (sets_in optima.now)) (end_of optima.now)) }
    ensures kept { result ≢ Status.Sink → O.faults out.new ≡ O.faults out.old }
    ensures rose { result ≡ Status.Sink → Rose (O.faults out.old) (O.faults out.new) }
{
    match optima {
        Optima::Unsatisfiable => print_end(alloc, &End::Unsatisfiable, out),
        Optima::Listing(sets) => print_sets(alloc, sets, shown, out),
    }
}
