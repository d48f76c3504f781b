//! Why a journal is refused.

use thiserror::Error;

/// The first fault of a journal. The lines of its text are counted from 1, and line 1 has the ring.
#[derive(Clone, Copy, Debug, PartialEq, Eq, Error)]
pub enum HistoryFault {
    /// The line is malformed.
    #[error("syntax")]
    Syntax { line: u32 },
    /// The entry of the line may not follow those before it.
    #[error("not a step")]
    NotAStep { line: u32 },
}
