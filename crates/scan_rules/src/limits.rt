//! The limits of the shared scan. Each is defined here once; definitions and code refer to it.

use sky_rules::limits::CHUNKS_MOST;
use text_rules::limits::QUERIES_MOST;

/// The most chunks of the ring: those of a sky.
pub const RING_MOST: u32 = CHUNKS_MOST;

/// The largest number of a query. Queries are numbered from 1, as in their script.
pub const QUERY_MOST: u32 = QUERIES_MOST;

/// The number of query numbers and of 0, which is no query's.
pub const QUERY_NUMBERS: usize = QUERY_MOST as usize + 1;

/// The most queries that run at once.
pub const RUNNING_MOST: u32 = 64;

/// A bound above the number of lines of any run. Each query has at most a take and a Deliver of each chunk, and the
/// lines of its own.
pub const LINES_BOUND: u32 = 1 << 23;
