// Printing.
ghost use Rattle.std.specs.Prelude.{◌≡◌, ◌≢◌, ◌++◌, false, true, IsTrue, OnOk, OnErr, IfErr, IfOk, string_bytes};
ghost use Rattle.std.specs.List.{flat_map};
ghost use Rattle.ap_base.specs.Counts.{Rose};
ghost use Rattle.ap_base.specs.Fronts.{TookFront};
ghost use Rattle.asprin_cli.specs.Lines.{is_cut, line_of, status_of};
ghost use Rattle.asprin_cli.specs.Listed.{kept_line, kept_text};
ghost use Rattle.asprin_cli.specs.Quits.{QuitCause};

use crate::{End, Quit};
use ap_base::{Sink, Status, write_all};
use ap_syntax::Text;
use small_front::Shown;
use std::alloc::{AllocError, Global};

/// Appends an atom behind a space, if it is shown.
fn push_atom(line: &mut String, atom: &Text, shown: &Shown) -> Result<(), AllocError>
    ensures { OnOk result (string_bytes line.new ≡ string_bytes line.old ++ kept_text shown.now atom.now) }
{
    if shown.shows(atom) {
        line.push_str(" ")?;
        line.push_str(atom.as_str())?;
    }
    Ok(())
}

/// Appends the atoms of a set that are shown, each behind a space.
fn push_atoms(line: &mut String, set: &[Text], shown: &Shown) -> Result<(), AllocError>
    ensures { OnOk result (string_bytes line.new ≡ string_bytes line.old ++ flat_map (kept_text shown.now) set.now) }
{
    for atom in set {
        push_atom(line, atom, shown)?;
    }
    Ok(())
}

/// The line of a set, with the atoms that are shown.
#[tactic(auto, using(crate::proofs::Showing::kept_texts))]
fn line_of_set(
    alloc: Global,
    number: usize,
    set: &[Text],
    shown: &Shown,
) -> Result<String, AllocError>
    ensures { IfOk result (λ line. string_bytes line ≡ kept_line shown.now number set.now) }
{
    let mut line = format!(in alloc; "OPTIMUM {number}:")?;
    push_atoms(&mut line, set, shown)?;
    line.push_str("\n")?;
    Ok(line)
}

/// Prints the line of a set, with the atoms that are shown.
pub fn print_set<O: Sink>(
    alloc: Global,
    number: usize,
    set: &[Text],
    shown: &Shown,
    out: &mut O,
) -> Result<(), Quit>
    ensures all { IsTrue O.tells
        → OnOk result (O.taken out.new ≡ O.taken out.old ++ kept_line shown.now number set.now) }
    ensures part { IsTrue O.tells
        → OnErr result (TookFront (O.taken out.old) (O.taken out.new) (kept_line shown.now number set.now)) }
    ensures kept { OnOk result (O.faults out.new ≡ O.faults out.old) }
    ensures cause { IfErr result (QuitCause (O.faults out.old) (O.faults out.new)) }
{
    let Ok(line) = line_of_set(alloc, number, set, shown) else {
        return Err(Quit::Memory);
    };
    write_all(out, line.as_bytes()).map_err(|_| Quit::Sink)
}

/// Prints the last line, and answers its status.
pub fn print_end<O: Sink>(alloc: Global, end: &End, out: &mut O) -> Status
    ensures named { is_cut result ≡ false → result ≡ status_of end.now }
    ensures all { IsTrue O.tells → is_cut result ≡ false → O.taken out.new ≡ O.taken out.old ++ line_of end.now }
    ensures part { IsTrue O.tells → is_cut result ≡ true
        → TookFront (O.taken out.old) (O.taken out.new) (line_of end.now) }
    ensures kept { result ≢ Status.Sink → O.faults out.new ≡ O.faults out.old }
    ensures rose { result ≡ Status.Sink → Rose (O.faults out.old) (O.faults out.new) }
{
    let Ok(line) = end.line(alloc) else {
        return Status::Memory;
    };
    if write_all(out, line.as_bytes()).is_err() {
        return Status::Sink;
    }
    end.status()
}
