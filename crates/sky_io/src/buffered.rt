//! A sink with a buffer, over any output of raw calls.
//!
//! Bytes that the buffer holds back count as written. A raw call that writes fewer bytes than it is given is followed by
//! another one with the rest. After a fault the bytes that were not written are still held back.
ghost use Rattle.std.specs.Prelude.{◌≡◌, true, false, length};
ghost use Rattle.sky_io.specs.Sinks.{Wrote, Flushed};
ghost use Rattle.sky_io.specs.RawWrites.{WroteFirst};
ghost use Rattle.sky_io.specs.Buffers.{BufferState, sink_over, empty_before, Emptied};

use crate::raw::RawWrite;
use crate::sink::{Put, Sink};
use arrayvec::ArrayVec;
use std::marker::Model;

// The most bytes that a buffer holds back.
const ROOM: usize = 8192;

/// A sink over an output, with a buffer of 8,192 bytes.
#[derive(Drop)]
pub struct Buffered<W: RawWrite> {
    out: W,
    buffer: ArrayVec<u8, ROOM>,
    sent: usize,
}

impl<W: RawWrite> Model for Buffered<W> {
    ghost use Rattle.std.specs.Prelude.{◌≤◌, length};
    ghost use Rattle.sky_io.specs.Buffers.{BufferState};

    ghost Value = { BufferState };

    ghost view = { λ s. record { out = W.state s.out; bytes = s.buffer.items; sent = s.sent } };

    ghost invariant = { λ s. s.sent ≤ length s.buffer.items };
}

impl<W: RawWrite> Buffered<W> {
    /// A sink over an output, with nothing in its buffer. Does not allocate.
    pub fn over(out: W) -> Buffered<W>
        ensures { result ≡ empty_before (W.state out) }
    {
        Buffered {
            out,
            buffer: ArrayVec::new(),
            sent: 0,
        }
    }

    /// The output.
    pub fn output(&self) -> &W
        ensures { W.state result.now ≡ self.now.out }
    {
        &self.out
    }

    // Holds a piece back if the buffer has room for it, and reports whether it has.
    fn holds(&mut self, piece: &[u8]) -> bool
        ensures held { result ≡ true →
            Wrote (sink_over self.old) (sink_over self.new) piece.now Put.Done }
        ensures same { result ≡ false → self.new ≡ self.old }
    {
        self.buffer.try_extend_from_slice(piece).is_ok()
    }

    // Sends what the buffer holds back.
    fn empty(&mut self) -> Put
        ensures { Emptied self.old self.new result }
    {
        let held = &self.buffer.as_slice()[self.sent..];
        let most = held.len();
        let sent = send(&mut self.out, held);
        if sent < most {
            self.sent += sent;
            return Put::Failed;
        }
        self.buffer.clear();
        self.sent = 0;
        Put::Done
    }

    // Sends a piece, past the buffer.
    #[tactic(auto, using(crate::proofs::Sends::wrote_all, crate::proofs::Sends::wrote_part))]
    fn pass(&mut self, piece: &[u8]) -> Put
        ensures wrote { Wrote self.old.out self.new.out piece.now result }
        ensures rest { self.new ≡ record self.old { out = self.new.out } }
    {
        if send(&mut self.out, piece) < piece.len() {
            return Put::Failed;
        }
        Put::Done
    }

    // Holds a piece back, or sends it if it is longer than the buffer.
    #[tactic(auto, using(crate::proofs::Holding::passed_wrote))]
    fn put_next(&mut self, piece: &[u8]) -> Put
        requires { self.old ≡ empty_before self.old.out }
        ensures { Wrote (sink_over self.old) (sink_over self.new) piece.now result }
    {
        if self.holds(piece) {
            return Put::Done;
        }
        self.pass(piece)
    }
}

impl<W: RawWrite> Sink for Buffered<W> {
    ghost state = { sink_over };

    #[tactic(auto, using(crate::proofs::Holding::emptied_wrote, crate::proofs::Holding::emptied_failed))]
    fn put(&mut self, piece: &[u8]) -> Put {
        if self.holds(piece) {
            return Put::Done;
        }
        let Put::Done = self.empty() else {
            return Put::Failed;
        };
        self.put_next(piece)
    }

    #[tactic(auto, using(crate::proofs::Holding::emptied_flushed, crate::proofs::Holding::emptied_unflushed))]
    fn flush_out(&mut self) -> Put {
        match self.empty() {
            Put::Failed => Put::Failed,
            Put::Done => self.out.flush(),
        }
    }
}

// Writes all of the bytes, or those before the first failure, and returns how many.
fn send<W: RawWrite>(out: &mut W, bytes: &[u8]) -> usize
    ensures { WroteFirst (W.state out.old) (W.state out.new) bytes.now result }
{
    let mut sent = 0;
    while sent < bytes.len() {
        match out.write_some(&bytes[sent..]) {
            Ok(n) => sent += n,
            Err(_) => return sent,
        }
    }
    sent
}
