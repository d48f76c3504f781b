//! The counts of a journal.

/// The number of entries of a journal, of its Attaches and of its Takes.
#[derive(Clone, Copy, Debug, PartialEq, Eq)]
pub struct Tally {
    pub entries: u32,
    pub queries: u32,
    pub takes: u32,
}
