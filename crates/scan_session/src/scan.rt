//! The context of a session: its boards, and the means to run it.
use std::alloc::Global;

/// The boards of a session, and what runs it: it stays the same during the session.
#[derive(Drop)]
pub struct Scan<'a, R, B, E, G> {
    pub alloc: Global,
    pub rt: &'a R,
    pub boards: &'a B,
    /// Makes the pieces.
    pub engine: &'a E,
    /// The czar and each worker pass it before the work on a chunk.
    pub gate: &'a G,
}
