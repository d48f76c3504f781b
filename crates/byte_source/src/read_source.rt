//! The standard input, as a source.
ghost use Rattle.std.specs.Prelude.{◌≡◌, None, false};
ghost use Rattle.byte_source.specs.Sources.{Took, unread_stream};

use crate::source::{Next, Source, fault};
use sky_io::Sink;
use std::io::{Read, Stdin};
use std::marker::Model;

// The most bytes that one read takes.
const ROOM: usize = 8192;

/// A source over a reader, with a buffer of 8,192 bytes. Its bytes are not observable. A read that gives nothing is the
/// end.
#[derive(Drop)]
pub struct ReadSource<F: Read> {
    from: F,
    buffer: [u8; ROOM],
    at: usize,
    end: usize,
    faults: u64,
}

/// Standard input.
pub type InSource = ReadSource<Stdin>;

impl<F: Read> Model for ReadSource<F> {
    ghost use Rattle.std.specs.Prelude.{◌≤◌, None};
    ghost use Rattle.byte_source.specs.Sources.{SourceState};

    ghost Value = { SourceState };

    ghost view = { λ s. record { left = None; faults = s.faults } };

    ghost invariant = { λ s. (s.at ≤ s.end) × (s.end ≤ 8192) };
}

impl ReadSource<Stdin> {
    /// Standard input, of which nothing was read, with no fault yet. Does not allocate.
    pub fn new(rt: &HostRuntime) -> InSource
        ensures { result ≡ unread_stream }
    {
        ReadSource::over(rt.stdin())
    }
}

impl<F: Read> ReadSource<F> {
    // A source over the reader, of which nothing was read.
    fn over(from: F) -> ReadSource<F>
        ensures { result ≡ unread_stream }
    {
        ReadSource {
            from,
            buffer: [0; ROOM],
            at: 0,
            end: 0,
            faults: 0,
        }
    }

    // Returns the next byte of the buffer, if it has one.
    fn buffered(&mut self) -> Option<u8>
        ensures same { self.new ≡ self.old }
        ensures unseen { self.old.left ≡ None }
    {
        if self.at == self.end {
            return None;
        }
        let byte = self.buffer[self.at];
        self.at += 1;
        Some(byte)
    }

    // Returns the next byte of the buffer, or the end if it has none.
    fn first(&mut self) -> Next
        ensures { Took self.old self.new result }
    {
        match self.buffered() {
            Some(byte) => Next::Byte(byte),
            None => Next::End,
        }
    }

    // Fills the buffer, which is empty, and returns its first byte.
    fn refilled(&mut self) -> Next
        ensures { Took self.old self.new result }
    {
        match self.from.read(&mut self.buffer) {
            Ok(count) => {
                self.at = 0;
                self.end = count;
                self.first()
            }
            Err(_) => fault(&mut self.faults),
        }
    }
}

impl<F: Read> Source for ReadSource<F> {
    ghost state = { λ source. source };

    fn next<K: Sink>(&mut self, _answers: &K) -> Next {
        match self.buffered() {
            Some(byte) => Next::Byte(byte),
            None => self.refilled(),
        }
    }
}
