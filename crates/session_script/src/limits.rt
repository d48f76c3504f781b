//! The limits of a script's steps. Each is defined here once; definitions and code refer to it.

/// The most digits of the number of a query in `wait` and `cancel`.
pub const QUERY_DIGITS_MOST: usize = 9;
