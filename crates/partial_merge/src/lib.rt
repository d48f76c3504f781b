//! Partial results: what a chunk query produces over a set of chunks, how two of them are combined, and the final table.
//!
//! Callers see a `Piece` as `PieceView` of `answer_rules`, and a `Table` as a list of rows of values. They see a
//! `PieceRoot`, which the pieces of a session are defined over, as a `Base`. `PieceFor` defines what a piece
//! represents. `absorb` preserves it, whichever two pieces are joined (`specs/Joining.antt`).
//!
//! A piece contains rows or groups (`contents`): a multiset of `partial_rows`, or an aggregation table of
//! `partial_groups`. Both end as a table of `answer_table`. A group is pushed with its `Key`, of `group_key`.
//!
//! Below: these four, `answer_rules` for the meaning of pieces and the lemmas, and `scan_core` for `Work`, by which a
//! board joins pieces (`work`). This crate has no chunks, no scans and no threads.
#![tactic(auto)]

mod contents;
pub mod piece;
pub mod root;
mod work;

pub use answer_table::Table;
pub use group_key::Key;
pub use partial_groups::Tally;
pub use partial_rows::Rank;
pub use piece::Piece;
pub use root::PieceRoot;
