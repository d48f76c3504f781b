//! A sink of bytes.
ghost use Rattle.std.specs.Prelude.{◌≡◌};
ghost use Rattle.sky_io.specs.Counts.{counted};
ghost use Rattle.sky_io.specs.Sinks.{Wrote, Flushed, SinkState};

/// The result of a call that writes.
#[derive(Clone, Copy, Debug, PartialEq, Eq)]
pub enum Put {
    /// Everything was accepted.
    Done,
    /// The sink failed, and its count of faults has risen.
    Failed,
}

/// Bytes that are written piece after piece, with a count of faults up to 2^64-1.
pub trait Sink {
    /// What was written, if that is observable, whether bytes may be held back, and how often the sink has failed.
    ghost state: { Self → SinkState };

    /// Appends a piece. A failure may leave a prefix of it written. Does not allocate.
    fn put(&mut self, piece: &[u8]) -> Put
        ensures { Wrote (state self.old) (state self.new) piece.now result };

    /// Sends what is held back. Does not allocate.
    fn flush_out(&mut self) -> Put
        ensures { Flushed (state self.old) (state self.new) result };
}

// Counts a fault and returns `Put::Failed`.
pub(crate) fn fault(faults: &mut u64) -> Put
    ensures counted { faults.new ≡ counted faults.old }
    ensures answer { result ≡ Put.Failed }
{
    *faults = faults.saturating_add(1);
    Put::Failed
}
