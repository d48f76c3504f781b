//! The limits of the tokens of a text. Each is defined here once; definitions and code refer to it.

/// The most tokens of a text.
pub const TOKENS_MOST: usize = 2048;

/// The most brackets that may be open at a position.
pub const BRACKETS_MOST: u32 = 32;

/// The largest integer.
pub const INT_MOST: u64 = (1 << 63) - 1;
