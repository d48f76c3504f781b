//! An output in memory that writes a few bytes at a call, with injected failures and a fixed capacity.
ghost use Rattle.std.specs.Prelude.{◌≡◌, ◌<◌, ◌↔◌, IfOk, OnOk, OnErr, IsErr, length};
ghost use Rattle.sky_io.specs.RawWrites.{WroteSome};
ghost use Rattle.sky_io.specs.MemOutputs.{MemOutputState, output_of, new_output, WriteFails, count_of, after_write, after_write_fault};

use crate::Memory;
use crate::calls::Calls;
use crate::raw::{RawFault, RawWrite, raw_fault};
use crate::sink::Put;
use std::alloc::Global;
use std::marker::Model;

/// Bytes in memory. It allocates room for all of them when it is made, and none later.
#[derive(Drop)]
pub struct MemOutput {
    bytes: Vec<u8>,
    room: usize,
    most: u32,
    calls: Calls,
    faults: u64,
}

impl Model for MemOutput {
    ghost use Rattle.std.specs.Prelude.{◌<◌, ◌≤◌, vec_len, vec_capacity};
    ghost use Rattle.sky_io.specs.MemOutputs.{MemOutputState};

    ghost Value = { MemOutputState };

    ghost view = { λ s. record {
      written = s.bytes.items;
      room = s.room;
      most = s.most;
      calls = s.calls.made;
      failing = s.calls.failing.items;
      faults = s.faults;
    } };

    ghost invariant = { λ s. (vec_len s.bytes ≤ s.room) × (s.room ≤ vec_capacity s.bytes) × (0 < s.most) };
}

impl MemOutput {
    /// An output with room for `room` bytes, of which a call writes at most `most`. Its writes are numbered from 1, and
    /// fail if they are listed or no room is left.
    pub fn new(
        alloc: Global,
        room: usize,
        most: u32,
        failing: Vec<u64>,
    ) -> Result<MemOutput, Memory>
        requires { 0 < most }
        ensures { IfOk result (λ output. output ≡ new_output room most failing.items) }
    {
        Ok(MemOutput {
            bytes: Vec::with_capacity(alloc, room)?,
            room,
            most,
            calls: Calls { made: 0, failing },
            faults: 0,
        })
    }

    /// The bytes written so far.
    pub fn bytes(&self) -> &[u8]
        ensures { result.now ≡ self.now.written }
    {
        self.bytes.as_slice()
    }
}

impl RawWrite for MemOutput {
    ghost state = { output_of };

    /// Writes as many bytes as one call writes and there is room for.
    fn write_some(&mut self, bytes: &[u8]) -> Result<usize, RawFault>
        requires { 0 < length bytes.now }
        ensures wrote { WroteSome (output_of self.old) (output_of self.new) bytes.now result }
        ensures fails { IsErr result ↔ WriteFails self.old }
        ensures count { IfOk result (λ n. n ≡ count_of self.old bytes.now) }
        ensures done { OnOk result (self.new ≡ after_write self.old bytes.now) }
        ensures failed { OnErr result (self.new ≡ after_write_fault self.old) }
    {
        let left = self.room - self.bytes.len();
        if self.calls.next_fails() || left == 0 {
            return Err(raw_fault(&mut self.faults));
        }
        let count = left.min(self.most as usize).min(bytes.len());
        self.bytes.extend_from_slice(&bytes[..count]).unwrap();
        Ok(count)
    }

    fn flush(&mut self) -> Put
        ensures same { self.new ≡ self.old }
        ensures answer { result ≡ Put.Done }
    {
        Put::Done
    }
}
