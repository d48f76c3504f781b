//! A sink in memory with injected failures and a fixed capacity.
ghost use Rattle.std.specs.Prelude.{◌≡◌, ◌+◌, ◌≤◌, ◌↔◌, ◌⊎◌, IfOk, length};
ghost use Rattle.sky_io.specs.Sinks.{Wrote, Flushed};
ghost use Rattle.sky_io.specs.MemSinks.{MemSinkState, sink_of, new_sink, cutting_sink, IsListed, IsTooLong, appended, after_put, after_flush, after_fault, after_cut, after_failed_put};

use crate::Memory;
use crate::calls::Calls;
use crate::sink::{Put, Sink, fault};
use std::alloc::Global;
use std::marker::Model;

/// Bytes in memory. It allocates room for all of them when it is made, and none later.
#[derive(Drop)]
pub struct MemSink {
    bytes: Vec<u8>,
    room: usize,
    keep: u32,
    calls: Calls,
    faults: u64,
    dirty: bool,
}

impl Model for MemSink {
    ghost use Rattle.std.specs.Prelude.{◌≤◌, vec_len, vec_capacity};
    ghost use Rattle.sky_io.specs.MemSinks.{MemSinkState};

    ghost Value = { MemSinkState };

    ghost view = { λ s. record {
      written = s.bytes.items;
      room = s.room;
      keep = s.keep;
      calls = s.calls.made;
      failing = s.calls.failing.items;
      faults = s.faults;
      dirty = s.dirty;
    } };

    ghost invariant = { λ s. (vec_len s.bytes ≤ s.room) × (s.room ≤ vec_capacity s.bytes) };
}

impl MemSink {
    /// A sink with room for `room` bytes. Its calls of `put` and `flush_out` are numbered together from 1, and fail if
    /// they are listed. A put that fails appends nothing.
    pub fn new(alloc: Global, room: usize, failing: Vec<u64>) -> Result<MemSink, Memory>
        ensures { IfOk result (λ sink. sink ≡ new_sink room failing.items) }
    {
        MemSink::cutting(alloc, room, failing, 0)
    }

    /// A sink as `new` makes it, but a put that fails appends the first `keep` bytes of its piece, or as many of them as
    /// there are and the room holds.
    pub fn cutting(
        alloc: Global,
        room: usize,
        failing: Vec<u64>,
        keep: u32,
    ) -> Result<MemSink, Memory>
        ensures { IfOk result (λ sink. sink ≡ cutting_sink room failing.items keep) }
    {
        Ok(MemSink {
            bytes: Vec::with_capacity(alloc, room)?,
            room,
            keep,
            calls: Calls { made: 0, failing },
            faults: 0,
            dirty: false,
        })
    }

    /// The bytes written so far.
    pub fn bytes(&self) -> &[u8]
        ensures { result.now ≡ self.now.written }
    {
        self.bytes.as_slice()
    }

    // Appends bytes that there is room for.
    fn append(&mut self, bytes: &[u8])
        requires { length self.old.written + length bytes.now ≤ self.old.room }
        ensures { self.new ≡ appended self.old bytes.now }
    {
        self.bytes.extend_from_slice(bytes).unwrap();
        self.dirty = self.dirty || !bytes.is_empty();
    }

    // Appends what a put that fails keeps of its piece, and counts the fault.
    fn cut(&mut self, piece: &[u8]) -> Put
        ensures cut { self.new ≡ after_cut self.old piece.now }
        ensures answer { result ≡ Put.Failed }
    {
        let most = (self.keep as usize).min(self.room - self.bytes.len());
        let kept = if most < piece.len() {
            &piece[..most]
        } else {
            piece
        };
        self.append(kept);
        fault(&mut self.faults)
    }
}

impl Sink for MemSink {
    ghost state = { sink_of };

    /// Appends a piece, or the beginning of it that is kept if it fails.
    fn put(&mut self, piece: &[u8]) -> Put
        ensures wrote { Wrote (sink_of self.old) (sink_of self.new) piece.now result }
        ensures fails { (result ≡ Put.Failed) ↔ (IsListed self.old ⊎ IsTooLong self.old piece.now) }
        ensures done { result ≡ Put.Done → self.new ≡ after_put self.old piece.now }
        ensures failed { result ≡ Put.Failed → self.new ≡ after_failed_put self.old piece.now }
    {
        if self.calls.next_fails() || piece.len() > self.room - self.bytes.len() {
            return self.cut(piece);
        }
        self.append(piece);
        Put::Done
    }

    fn flush_out(&mut self) -> Put
        ensures flushed { Flushed (sink_of self.old) (sink_of self.new) result }
        ensures fails { (result ≡ Put.Failed) ↔ IsListed self.old }
        ensures done { result ≡ Put.Done → self.new ≡ after_flush self.old }
        ensures failed { result ≡ Put.Failed → self.new ≡ after_fault self.old }
    {
        if self.calls.next_fails() {
            return fault(&mut self.faults);
        }
        self.dirty = false;
        Put::Done
    }
}
