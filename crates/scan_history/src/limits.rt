//! The limits of a journal's text. Each is defined here once; definitions and code refer to it.

/// The most digits of a number of a journal.
pub const NUMBER_DIGITS_MOST: usize = 10;

/// The bound of the numbers of a journal: each is below it.
pub const NUMBER_BOUND: u64 = 1 << 32;
