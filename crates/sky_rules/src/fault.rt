//! The faults of a sky text.

use thiserror::Error;

/// The first fault of a sky text, with the number of its line, from 1.
#[derive(Clone, Copy, Debug, PartialEq, Eq, Error)]
pub enum SkyFault {
    /// The first line is neither `overlap` and a number nor `version 2`, or a later one is not a stripe line.
    #[error("not a line of a sky plan")]
    Syntax { line: u32 },
    /// An overlap is outside 0 to 2^24.
    #[error("overlap out of range")]
    Overlap { line: u32 },
    /// A stripe begins at a wrong height. The first is not at the bottom of the sky, or a later one is less than 64
    /// above the one before it. Or any is less than 64 below the top of the sky.
    #[error("stripe out of order")]
    Order { line: u32 },
    /// A number of chunks, of columns or of rows is not among those that a stripe can have.
    #[error("count out of range")]
    Count { line: u32 },
    /// There are more than 256 stripes, or more than 16,384 chunks.
    #[error("too many stripes or chunks")]
    TooMany { line: u32 },
}
