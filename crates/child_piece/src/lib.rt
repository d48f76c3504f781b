//! Partial results of child queries, which a board combines, and what they are defined over.
//!
//! Callers see a `ChildPiece` as `PieceView` of `answer_rules`, and a `ChildRoot` as a `ChildBase` of `child_rules`.
//! `ChildFor` defines what a piece represents: all rows of its query over its chunks.
//!
//! Below: `child_rules` for that meaning, `partial_merge` for pieces of rows, `chunk_rewriter` for copies and for the
//! merge, `scan_core` for `Work`, by which a board combines pieces (`work`). No chunk is scanned here.
#![tactic(auto)]

mod copy;
pub mod piece;
pub mod root;
mod work;

pub use copy::copy_of_child;
pub use piece::ChildPiece;
pub use root::ChildRoot;
