//! The standard streams, as outputs of raw calls.
ghost use Rattle.std.specs.Prelude.{◌≡◌};
ghost use Rattle.sky_io.specs.Sinks.{unused_stream};
ghost use Rattle.sky_io.specs.RawWrites.{unseen_stream};
ghost use Rattle.sky_io.specs.Buffers.{sink_over};

use crate::buffered::Buffered;
use crate::raw::{RawFault, RawWrite, raw_fault};
use crate::sink::Put;
use std::io::{Stderr, Stdout};
use std::marker::Model;

/// A stream that is written by one call of the system at a time. Contracts see the count of its faults
/// alone.
#[derive(Drop)]
pub struct PrintStream<P: Print> {
    out: P,
    faults: u64,
}

/// Standard output.
pub type OutSink = Buffered<PrintStream<Stdout>>;

/// Standard error.
pub type ErrSink = Buffered<PrintStream<Stderr>>;

impl<P: Print> Model for PrintStream<P> {
    ghost use Rattle.std.specs.Prelude.{ℕ};

    ghost Value = { ℕ };

    ghost view = { λ s. s.faults };
}

impl Buffered<PrintStream<Stdout>> {
    /// Standard output, with nothing held back and no fault yet. Does not allocate.
    pub fn new(rt: &HostRuntime) -> OutSink
        ensures { sink_over result ≡ unused_stream }
    {
        Buffered::over(stream_of(rt.stdout()))
    }
}

impl Buffered<PrintStream<Stderr>> {
    /// Standard error, with nothing held back and no fault yet. Does not allocate.
    pub fn new(rt: &HostRuntime) -> ErrSink
        ensures { sink_over result ≡ unused_stream }
    {
        Buffered::over(stream_of(rt.stderr()))
    }
}

// The stream of a printer, with no fault yet.
fn stream_of<P: Print>(out: P) -> PrintStream<P>
    ensures { result ≡ 0 }
{
    PrintStream { out, faults: 0 }
}

impl<P: Print> RawWrite for PrintStream<P> {
    ghost state = { unseen_stream };

    // A write that accepts no byte is a failure.
    fn write_some(&mut self, bytes: &[u8]) -> Result<usize, RawFault> {
        match self.out.write_some(bytes) {
            Ok(n) if n > 0 => Ok(n),
            _ => Err(raw_fault(&mut self.faults)),
        }
    }

    // A call of the system holds nothing back.
    fn flush(&mut self) -> Put {
        Put::Done
    }
}
