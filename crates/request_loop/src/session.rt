//! How a session ends.

/// How a session ended.
#[derive(Clone, Copy, Debug, PartialEq, Eq)]
pub enum Session {
    /// The input was read to its end, and all of its requests were answered.
    Done,
    /// The source failed. The requests before that were answered.
    SourceFault,
    /// The sink failed, and a prefix of the replies may have been written.
    SinkFault,
}
