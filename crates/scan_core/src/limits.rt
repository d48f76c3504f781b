//! The sizes of a board. They follow from the limits of the shared scan, which `scan_rules` defines: the numbers of
//! queries, and how many run at once.

use scan_rules::limits::{QUERY_MOST, RUNNING_MOST};

/// The number of slots of a board: one for each query number, and one for 0, which is no query's.
pub const SLOTS: usize = QUERY_MOST as usize + 1;

/// The most queries of a task: as many as can run at once.
pub const TAKERS_MOST: usize = RUNNING_MOST as usize;
