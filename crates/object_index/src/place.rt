//! The location of an id: its chunk and its row.

/// The number of the chunk that contains a row, and the row's number in the table, both from 0.
#[derive(Clone, Copy, Debug, PartialEq, Eq)]
pub struct Place {
    pub chunk: u32,
    pub row: u32,
}
