// A source in memory, which fails at the calls that it is given.
ghost use Rattle.std.specs.Prelude.{◌≡◌, ◌+◌, ◌-◌, ◌<◌, ◌≤◌, ◌||◌, not, [], length, take, drop, ◌++◌, min, true, Some, None, MatchOption, is_err, if◌then◌else◌, IfOk, OnOk, OnErr};
ghost use Rattle.ap_base.specs.Counts.{HasCause, counted};
ghost use Rattle.ap_base.specs.Fakes.{fails_at};
ghost use Rattle.ap_base.specs.Inputs.{find_input, is_held};
ghost use Rattle.ap_base.specs.MemSource.{inputs_of, left_of, new_source, after_open, after_read, moved};

use crate::fakes::next_fails;
use crate::{Failed, Source};
use std::marker::Model;

/// An input: a name and the bytes under it.
#[derive(Debug, Drop)]
pub struct NamedBytes {
    pub name: String,
    pub bytes: Vec<u8>,
}

/// A source that holds a list of named inputs, and fails where it is told to.
///
/// Its calls are numbered from 0, over `open` and `read` together. A call fails exactly where its number is in the
/// list of those that fail, or where it opens a name that no input has. A failed call moves nothing, and the open
/// input stays open.
#[derive(Debug, Drop)]
pub struct MemSource {
    files: Vec<NamedBytes>,
    current: Option<usize>,
    from: usize,
    fails: Vec<u64>,
    calls: u64,
    piece: usize,
    faults: u64,
    opens: u64,
    absent: u64,
}

impl Model for MemSource {
    ghost use Rattle.std.specs.Prelude.{◌<◌};
    ghost use Rattle.ap_base.specs.MemSource.{SourceState, inputs_of, left_of};

    ghost Value = { SourceState };

    ghost view = { λ s. record {
      inputs = inputs_of s.files.items;
      left = left_of s.files.items s.current s.from;
      fails = s.fails.items;
      calls = s.calls;
      piece = s.piece;
      faults = s.faults;
      opens = s.opens;
      absent = s.absent;
    } };

    ghost invariant = { λ s. 0 < s.piece };
}

impl MemSource {
    /// Holds these inputs, and fails at the calls with these numbers. No input is open at first.
    pub fn new(files: Vec<NamedBytes>, fails: Vec<u64>) -> MemSource
        ensures { result ≡ new_source (inputs_of files.items) fails.items }
    {
        MemSource {
            files,
            current: None,
            from: 0,
            fails,
            calls: 0,
            piece: usize::MAX,
            faults: 0,
            opens: 0,
            absent: 0,
        }
    }

    /// Each later read moves at most `n` bytes.
    pub fn piece(&mut self, n: usize)
        requires { 0 < n }
        ensures { self.new ≡ record self.old { piece = n } }
    {
        self.piece = n;
    }
}

/// The place of the first file of this name.
fn place_of(files: &[NamedBytes], name: &str) -> Option<usize>
    ensures { MatchOption result (find_input (inputs_of files.now) name.now ≡ None)
        (λ at. find_input (inputs_of files.now) name.now ≡ Some (left_of files.now (Some at) 0)) }
{
    for (at, file) in files.iter().enumerate() {
        if file.name.as_str() == name {
            return Some(at);
        }
    }
    None
}

/// The bytes of the open file from a place on.
fn rest_of(files: &[NamedBytes], current: Option<usize>, from: usize) -> &[u8]
    ensures { result.now ≡ left_of files.now current from }
{
    let Some(at) = current else {
        return &[];
    };
    let Some(file) = files.get(at) else {
        return &[];
    };
    file.bytes.get(from..).unwrap_or(&[])
}

/// Moves as many of these bytes as the buffer holds, and at most `piece`.
fn copy_front(from: &[u8], piece: usize, buf: &mut [u8]) -> usize
    ensures count { result ≡ min (min (length from.now) (length buf.old)) piece }
    ensures moved { buf.new ≡ take result from.now ++ drop result buf.old }
{
    let n = from.len().min(buf.len()).min(piece);
    buf[..n].copy_from_slice(&from[..n]);
    n
}

impl Source for MemSource {
    ghost tells = { true };

    ghost held = { λ s. s.inputs };

    ghost left = { λ s. s.left };

    ghost faults = { λ s. s.faults };

    ghost opens = { λ s. s.opens };

    ghost absent = { λ s. s.absent };

    fn open(&mut self, name: &str) -> Result<(), Failed>
        ensures exact { is_err result ≡ (fails_at self.old.fails self.old.calls || not (is_held self.old.inputs name.now)) }
        ensures next { self.new ≡ after_open self.old name.now }
    {
        self.opens = self.opens.saturating_add(1);
        let refused = next_fails(&self.fails, &mut self.calls);
        match place_of(&self.files, name) {
            Some(at) if !refused => {
                self.current = Some(at);
                self.from = 0;
                Ok(())
            }
            Some(_) => {
                self.faults = self.faults.saturating_add(1);
                Err(Failed)
            }
            None => {
                self.absent = self.absent.saturating_add(1);
                self.faults = self.faults.saturating_add(1);
                Err(Failed)
            }
        }
    }

    fn read(&mut self, buf: &mut [u8]) -> Result<usize, Failed>
        requires { 0 < length buf.old }
        ensures exact { is_err result ≡ fails_at self.old.fails self.old.calls }
        ensures count { IfOk result (λ n. n ≡ moved self.old (length buf.old)) }
        ensures end { IfOk result (λ n. n ≡ 0 → self.old.left ≡ []) }
        ensures moved { IfOk result (λ n. buf.new ≡ take n self.old.left ++ drop n buf.old) }
        ensures kept { OnErr result (buf.new ≡ buf.old) }
        ensures next { self.new ≡ after_read self.old (length buf.old) }
    {
        if next_fails(&self.fails, &mut self.calls) {
            self.faults = self.faults.saturating_add(1);
            return Err(Failed);
        }
        let rest = rest_of(&self.files, self.current, self.from);
        let n = copy_front(rest, self.piece, buf);
        self.from += n;
        Ok(n)
    }
}
