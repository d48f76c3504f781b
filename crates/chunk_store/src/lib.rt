//! The chunks of a survey: which rows each chunk contains, and which it needs in addition to its own.
//!
//! Callers see a `Store` as its `Survey` (`specs/Survey.antt`). Each list is a filter of the flat table, as ascending
//! row numbers (`specs/Places.antt`). The columns of a chunk's rows are a `Block`. Below: `sky_plan` for the chunk of a
//! position, `overlap_tables` for near regions, `sky_row` for rows, `column_block` for a chunk's columns. No queries
//! and no ids: a row is identified by its number in the table.
#![tactic(auto)]

mod blocks;
pub mod examples;
mod fill;
pub mod laws;
pub mod lists;
mod merged;
pub mod store;
mod subchunk;

pub use lists::Lists;
pub use store::Store;
