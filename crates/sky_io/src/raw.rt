//! The raw calls of the outside: an output that writes some bytes, and files that are read part by part.
//!
//! `Buffered` is a sink over any `RawWrite`, and `FileShelf` a shelf over any `RawRead`: what each does is proved of them
//! all. Over a real stream or a real file a raw call is one call of the system, whose content is not observable.
ghost use Rattle.std.specs.Prelude.{◌≡◌, ℕ, ◌<◌, ◌≤◌, List, Option, length};
ghost use Rattle.sky_io.specs.Counts.{counted};
ghost use Rattle.sky_io.specs.Sinks.{SinkState, Flushed};
ghost use Rattle.sky_io.specs.RawWrites.{WroteSome};
ghost use Rattle.sky_io.specs.RawReads.{ReadState, Opened, ReadSome};

use crate::sink::Put;

/// A raw call failed, and its count of faults has risen.
#[derive(Clone, Copy, Debug, PartialEq, Eq)]
pub struct RawFault;

/// An output that may write fewer bytes than it is given, with a count of faults up to 2^64-1.
pub trait RawWrite {
    /// What was written, if that is observable, whether bytes may be held back, and how often a call has failed.
    ghost state: { Self → SinkState };

    /// Writes the first of these bytes, and returns how many, at least 1. A failure writes none. Does not allocate.
    fn write_some(&mut self, bytes: &[u8]) -> Result<usize, RawFault>
        requires { 0 < length bytes.now }
        ensures { WroteSome (state self.old) (state self.new) bytes.now result };

    /// Sends what the output itself holds back. Does not allocate.
    fn flush(&mut self) -> Put
        ensures { Flushed (state self.old) (state self.new) result };
}

/// Files by their names, with a count of faults up to 2^64-1.
pub trait RawRead {
    /// An open file.
    type File: Drop;

    /// The texts of the files, if they are observable, and how often a call has failed.
    ghost state: { Self → ReadState };

    /// What is left to be read of an open file, if that is observable.
    ghost rest: { Self.File → Option (List ℕ) };

    /// Opens the named file at its start.
    fn open(&mut self, name: &str) -> Result<Self::File, RawFault>
        ensures { Opened rest (state self.old) (state self.new) name.now result };

    /// Reads the next bytes of a file to the start of the room, and returns how many. It returns 0 only at the end.
    fn read_some(&mut self, file: &mut Self::File, room: &mut [u8]) -> Result<usize, RawFault>
        requires { 0 < length room.old }
        ensures { ReadSome (state self.old) (state self.new) (rest file.old) (rest file.new)
            room.new result };
}

// Counts a fault of a raw call.
pub(crate) fn raw_fault(faults: &mut u64) -> RawFault
    ensures counted { faults.new ≡ counted faults.old }
    ensures later { faults.old ≤ faults.new }
{
    *faults = faults.saturating_add(1);
    RawFault
}
