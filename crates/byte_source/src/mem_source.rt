//! A source in memory with injected failures.
ghost use Rattle.std.specs.Prelude.{◌≡◌, ◌↔◌, drop, false};
ghost use Rattle.byte_source.specs.MemSources.{IsListed, after_fault, new_source, source_of};
ghost use Rattle.byte_source.specs.Sources.{Took};
ghost use Rattle.sky_io.specs.Counts.{counted, is_listed};

use crate::source::{Next, Source, fault};
use sky_io::Sink;
use std::marker::Model;

/// Bytes in memory. A read fails if its number, from 1, is listed.
#[derive(Drop)]
pub struct MemSource {
    bytes: Vec<u8>,
    at: usize,
    calls: u64,
    failing: Vec<u64>,
    faults: u64,
}

impl Model for MemSource {
    ghost use Rattle.std.specs.Prelude.{◌≤◌, drop, vec_len};
    ghost use Rattle.byte_source.specs.MemSources.{MemSourceState};

    ghost Value = { MemSourceState };

    ghost view = { λ s. record {
      left = drop s.at s.bytes.items;
      calls = s.calls;
      failing = s.failing.items;
      faults = s.faults;
    } };

    ghost invariant = { λ s. s.at ≤ vec_len s.bytes };
}

impl MemSource {
    /// A source of these bytes, of which none was read. Its reads are numbered from 1, and fail if they are listed.
    /// Does not allocate.
    pub fn new(bytes: Vec<u8>, failing: Vec<u64>) -> MemSource
        ensures { result ≡ new_source bytes.items failing.items }
    {
        MemSource {
            bytes,
            at: 0,
            calls: 0,
            failing,
            faults: 0,
        }
    }

    // Counts a read and reports whether it is to fail.
    fn next_fails(&mut self) -> bool
        ensures value { result ≡ is_listed self.old.calls self.old.failing }
        ensures counted { self.new ≡ record self.old { calls = counted self.old.calls } }
    {
        self.calls = self.calls.saturating_add(1);
        self.failing.as_slice().contains(&self.calls)
    }
}

impl Source for MemSource {
    ghost state = { source_of };

    /// Reads the next byte. A read that fails leaves all bytes as they are.
    fn next<K: Sink>(&mut self, answers: &K) -> Next
        requires sent { (K.state answers.now).held ≡ false }
        ensures took { Took (source_of self.old) (source_of self.new) result }
        ensures fails { (result ≡ Next.Failed) ↔ IsListed self.old }
        ensures failed { result ≡ Next.Failed → self.new ≡ after_fault self.old }
    {
        if self.next_fails() {
            return fault(&mut self.faults);
        }
        match self.bytes.as_slice().get(self.at) {
            None => Next::End,
            Some(byte) => {
                self.at += 1;
                Next::Byte(*byte)
            }
        }
    }
}
