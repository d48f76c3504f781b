//! A source of bytes.
ghost use Rattle.std.specs.Prelude.{◌≡◌, false};
ghost use Rattle.sky_io.specs.Counts.{counted};
ghost use Rattle.byte_source.specs.Sources.{SourceState, Took};

use sky_io::Sink;

/// The result of a read.
#[derive(Clone, Copy, Debug, PartialEq, Eq)]
pub enum Next {
    /// The next byte.
    Byte(u8),
    /// No byte is left.
    End,
    /// The source failed, and its count of faults has risen.
    Failed,
}

/// Bytes that are read one after another, with a count of faults up to 2^64-1.
pub trait Source {
    /// The bytes that are left, if they are observable, and how often the source has failed.
    ghost state: { Self → SourceState };

    /// Reads the next byte. The answers to what was read before go to a sink, which holds nothing back. Does not
    /// allocate.
    fn next<K: Sink>(&mut self, answers: &K) -> Next
        requires sent { (K.state answers.now).held ≡ false }
        ensures { Took (state self.old) (state self.new) result };
}

// Counts a fault and returns `Next::Failed`.
pub(crate) fn fault(faults: &mut u64) -> Next
    ensures counted { faults.new ≡ counted faults.old }
    ensures answer { result ≡ Next.Failed }
{
    *faults = faults.saturating_add(1);
    Next::Failed
}
