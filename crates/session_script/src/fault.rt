//! Why a script is refused.

use thiserror::Error;

/// The first fault of a script. Lines are counted from 1, comment lines included.
#[derive(Clone, Copy, Debug, PartialEq, Eq, Error)]
pub enum ScriptFault {
    /// A cancel or a wait names a number that is not that of a query on an earlier line.
    #[error("unknown query")]
    UnknownQuery { line: u32, number: u32 },
    /// A line, of any kind, has more than 16,384 bytes.
    #[error("line too long")]
    LineTooLong { line: u32 },
    /// The 256th query.
    #[error("too many queries")]
    TooManyQueries { line: u32 },
}
