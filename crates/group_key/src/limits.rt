//! The limit of a key.

/// The number of values that are stored in a key itself. GROUP BY names no more columns.
pub const SHORT_KEY_MOST: usize = 4;
