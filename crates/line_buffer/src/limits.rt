//! Limits of a line buffer.

/// The number of bytes that a line buffer has room for.
pub const LINE_ROOM: usize = 512;

/// The most bytes of a number of 64 bits: 19 digits and a minus.
pub const NUMBER_ROOM: usize = 20;
