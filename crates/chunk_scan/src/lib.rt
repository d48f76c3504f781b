//! The scan of a chunk: which of its rows meet the conditions of a chunk query, and the partial result of these rows.
//!
//! Callers see `mask` as a flag for each row, and `scan` as a piece that represents the chunk alone (`PieceFor`). The
//! program calls `scan`; nothing in it calls `mask`. A scan has two steps: `chunk_filter` selects the rows, and
//! `chunk_row_scan` or `chunk_group_scan` makes the piece of them. What a scan needs beside its piece is in a `Scratch`,
//! which its caller keeps for the next scan.
//!
//! Below: these three, `chunk_store` for a chunk's block, and `partial_merge` for the piece. This
//! crate has no pairs of rows, no threads and no other chunk.
#![tactic(auto)]

mod chunk;

pub use chunk::scan;
pub use chunk_filter::{Scratch, mask};
