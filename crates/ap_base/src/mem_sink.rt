// A sink in memory, which fails at the calls that it is given.
ghost use Rattle.std.specs.Prelude.{◌≡◌, ◌+◌, ◌-◌, ◌<◌, ◌≤◌, length, take, ◌++◌, min, true, is_err, IfOk, OnOk, OnErr};
ghost use Rattle.ap_base.specs.Counts.{HasCause};
ghost use Rattle.ap_base.specs.Fakes.{fails_at};
ghost use Rattle.ap_base.specs.MemSink.{new_sink, after_sink_open, after_write, taken_of, write_fails};

use crate::fakes::next_fails;
use crate::{Failed, Sink};
use std::alloc::{AllocError, Global};
use std::marker::Model;

/// A sink that keeps what it takes, up to a number of bytes, and fails where it is told to.
///
/// Its calls are numbered from 0, over `open` and `write` together. A call fails exactly where its number is in the
/// list of those that fail, or where it is a write and no room is left. Its memory is taken when it is made.
#[derive(Debug, Drop)]
pub struct MemSink {
    bytes: Vec<u8>,
    room: usize,
    fails: Vec<u64>,
    calls: u64,
    piece: usize,
    faults: u64,
}

impl Model for MemSink {
    ghost use Rattle.std.specs.Prelude.{◌<◌, ◌≤◌};
    ghost use Rattle.std.specs.Vec.{vec_capacity};
    ghost use Rattle.ap_base.specs.MemSink.{SinkState};

    ghost Value = { SinkState };

    ghost view = { λ s. record {
      bytes = s.bytes.items;
      room = s.room;
      fails = s.fails.items;
      calls = s.calls;
      piece = s.piece;
      faults = s.faults;
    } };

    ghost invariant = { λ s. (0 < s.piece) × (s.room ≤ vec_capacity s.bytes) };
}

impl MemSink {
    /// Takes at most `room` bytes, and fails at the calls with these numbers.
    ///
    /// # Errors
    /// `AllocError` where there is no memory for `room` bytes.
    pub fn new(alloc: Global, room: usize, fails: Vec<u64>) -> Result<MemSink, AllocError>
        ensures { IfOk result (λ sink. sink ≡ new_sink room fails.items) }
    {
        Ok(MemSink {
            bytes: Vec::with_capacity(alloc, room)?,
            room,
            fails,
            calls: 0,
            piece: usize::MAX,
            faults: 0,
        })
    }

    /// The bytes taken.
    pub fn bytes(&self) -> &[u8]
        ensures { result.now ≡ self.now.bytes }
    {
        &self.bytes
    }

    /// Each later write takes at most `n` bytes.
    pub fn piece(&mut self, n: usize)
        requires { 0 < n }
        ensures { self.new ≡ record self.old { piece = n } }
    {
        self.piece = n;
    }
}

impl Sink for MemSink {
    ghost tells = { true };

    ghost taken = { λ s. s.bytes };

    ghost faults = { λ s. s.faults };

    fn open(&mut self, _name: &str) -> Result<(), Failed>
        ensures exact { is_err result ≡ fails_at self.old.fails self.old.calls }
        ensures next { self.new ≡ after_sink_open self.old }
    {
        if next_fails(&self.fails, &mut self.calls) {
            self.faults = self.faults.saturating_add(1);
            return Err(Failed);
        }
        Ok(())
    }

    fn write(&mut self, bytes: &[u8]) -> Result<usize, Failed>
        requires { 0 < length bytes.now }
        ensures exact { is_err result ≡ write_fails self.old }
        ensures some { IfOk result (λ n. 0 < n) }
        ensures count { IfOk result (λ n. n ≡ taken_of self.old (length bytes.now)) }
        ensures next { self.new ≡ after_write self.old bytes.now }
    {
        let refused = next_fails(&self.fails, &mut self.calls);
        let room = self.room.saturating_sub(self.bytes.len());
        let n = bytes.len().min(room).min(self.piece);
        if refused || n == 0 || self.bytes.extend_from_slice(&bytes[..n]).is_err() {
            self.faults = self.faults.saturating_add(1);
            return Err(Failed);
        }
        Ok(n)
    }
}
