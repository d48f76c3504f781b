//! The record that a replay has of a take.

use scan_rules::QuerySet;

/// A take: the participant that took, the queries, and whether the task was delivered.
#[derive(Drop)]
pub(crate) struct TakeRecord {
    pub(crate) seat: u32,
    pub(crate) queries: QuerySet,
    pub(crate) delivered: bool,
}
