//! The limits of the arguments of a command: each is stated here once, and definitions and code cite it.

/// The most digits of a number among the arguments.
pub const WORD_DIGITS_MOST: usize = 10;
