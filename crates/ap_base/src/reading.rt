// Reading named inputs to their ends, within a limit on their bytes.
ghost use Rattle.std.specs.Prelude.{◌≡◌, ◌≤◌, All, length, vec_len, Some, IsTrue, IfOk, IfErr, OnOk};
ghost use Rattle.ap_base.specs.Counts.{counted};
ghost use Rattle.ap_base.specs.Inputs.{find_input, is_held};
ghost use Rattle.ap_base.specs.Readings.{AllHeld, AllRead, reading_of, texts_of, bytes_of};
ghost use Rattle.ap_base.specs.ReadFaults.{InputFaultCause, ReadBefore, ReadFaultCause};

use crate::Source;
use std::alloc::Global;
use std::error::Error;
use thiserror::Error;

/// Why some inputs were not read to their ends.
#[derive(Clone, Copy, Debug, PartialEq, Eq, Error)]
pub enum ReadFault {
    /// The source failed in or after so many opens, the first of which is number 1.
    #[error("the source failed at input {0}")]
    Source(u64),
    /// The inputs have more than `MAX_BYTES` bytes together.
    #[error("the inputs have more than {MAX_BYTES} bytes together")]
    Bytes,
    /// There was no memory for the bytes.
    #[error("out of memory")]
    Memory,
}

/// The most bytes of all inputs together.
pub const MAX_BYTES: usize = 16_777_216;

/// The bytes that one read may move.
const PIECE: usize = 4096;

/// Opens the input of this name and reads it to its end. At most `room` bytes are allowed, and this open has the
/// number `opened`.
fn read_input<S: Source>(
    alloc: Global,
    src: &mut S,
    name: &str,
    room: usize,
    opened: u64,
) -> Result<Vec<u8>, ReadFault>
    ensures all { IsTrue S.tells → IfOk result (λ bytes. find_input (S.held src.old) name.now ≡ Some bytes.items) }
    ensures fits { IfOk result (λ bytes. vec_len bytes ≤ room) }
    ensures kept { OnOk result (S.faults src.new ≡ S.faults src.old) }
    ensures cause { IfErr result (InputFaultCause S.tells (find_input (S.held src.old) name.now) room opened
        (S.faults src.old) (S.faults src.new)) }
    ensures held { S.held src.new ≡ S.held src.old }
    ensures opens { S.opens src.new ≡ counted (S.opens src.old) 1 }
    ensures absent { IsTrue S.tells → IsTrue (is_held (S.held src.old) name.now)
        → S.absent src.new ≡ S.absent src.old }
{
    src.open(name).map_err(|_| ReadFault::Source(opened))?;
    let mut bytes = Vec::new(alloc);
    let mut buf = [0u8; PIECE];
    'pieces: loop {
        let n = src.read(&mut buf).map_err(|_| ReadFault::Source(opened))?;
        if n == 0 {
            return Ok(bytes);
        }
        if n > room - bytes.len() {
            return Err(ReadFault::Bytes);
        }
        bytes
            .extend_from_slice(&buf[..n])
            .map_err(|_| ReadFault::Memory)?;
    }
}

/// Reads the inputs of these names to their ends, in order, each opened once.
///
/// # Errors
/// The first that is met: `ReadFault::Source` where the source fails at an open or a read, `ReadFault::Bytes` where
/// the inputs so far have more than [`MAX_BYTES`] bytes together, and `ReadFault::Memory` where there is no memory.
#[tactic(auto, using(crate::proofs::Steps::held_at))]
pub fn read_all<S: Source>(
    alloc: Global,
    names: &[String],
    src: &mut S,
) -> Result<Vec<Vec<u8>>, ReadFault>
    ensures all { IsTrue S.tells → IfOk result (λ files.
        reading_of (S.held src.old) (texts_of names.now) MAX_BYTES ≡ AllRead (bytes_of files.items)) }
    ensures count { IfOk result (λ files. length files.items ≡ length names.now) }
    ensures sizes { IfOk result (λ files. All (λ file. length file.items ≤ MAX_BYTES) files.items) }
    ensures kept { OnOk result (S.faults src.new ≡ S.faults src.old) }
    ensures opens { OnOk result (S.opens src.new ≡ counted (S.opens src.old) (length names.now)) }
    ensures most_opens { S.opens src.new ≤ counted (S.opens src.old) (length names.now) }
    ensures cause { IfErr result (ReadFaultCause S.tells (reading_of (S.held src.old) (texts_of names.now) MAX_BYTES)
        (S.faults src.old) (S.faults src.new) (S.opens src.old) (S.opens src.new)) }
    ensures before { IfErr result (ReadBefore S.tells (S.held src.old) (texts_of names.now) MAX_BYTES) }
    ensures held { S.held src.new ≡ S.held src.old }
    ensures absent { IsTrue S.tells → AllHeld (S.held src.old) (texts_of names.now)
        → S.absent src.new ≡ S.absent src.old }
{
    let mut files = Vec::new(alloc);
    let mut room = MAX_BYTES;
    for (at, name) in names.iter().enumerate() {
        let bytes = read_input(alloc, src, name, room, at as u64 + 1)?;
        room -= bytes.len();
        files.push(bytes).map_err(|_| ReadFault::Memory)?;
    }
    Ok(files)
}
