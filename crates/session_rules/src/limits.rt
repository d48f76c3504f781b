//! The limits of a session. Each is defined here once; definitions and code refer to it.

/// The most workers besides the czar.
pub const WORKERS_MOST: u32 = 16;
