//! The scan of a chunk for a child query: the sources of the chunk, each paired with its object.
//!
//! Callers see the result as a `ChildPiece`, and `ChildFor` of `child_rules` defines what it represents. Conditions that
//! compare one column of a source with numbers are evaluated first, on all sources of the chunk (`source_filter`). Each
//! source that is left finds its object among the ids of the table: where consecutive ids would have it, or by a binary
//! search (`object`). The source and its object become two rows of one width (`row`), on which the evaluator computes
//! conditions and items (`line`).
//!
//! Below: `source_store` for the sources of a chunk, `chunk_store` for the objects, `expr_eval` for conditions and
//! items, and `child_piece` for the piece. This crate merges nothing: an order and a LIMIT are left to the piece.
#![tactic(auto)]

mod chunk;
mod line;
mod object;
mod row;
mod scan;

pub use chunk::child_scan;
