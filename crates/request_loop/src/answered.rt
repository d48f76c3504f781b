//! The result of a call that answers a request.

/// The result of a call that answers a request.
#[derive(Clone, Copy, Debug, PartialEq, Eq)]
pub enum Answered {
    /// A whole answer was written.
    Done,
    /// The sink failed, and a prefix of an answer may have been written.
    Failed,
    /// An allocation failed, and nothing was written.
    Memory,
}
