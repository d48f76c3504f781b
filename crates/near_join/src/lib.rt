//! The near-neighbour join of a chunk: the ordered pairs of rows that a chunk query finds whose first row is in the
//! chunk.
//!
//! Callers see the result as a `Piece`, and `PieceFor` defines what it represents. The lemma that a walk over the
//! subchunks finds each pair once is in `laws`, over `specs/Walk.antt`.
//!
//! The rows of a chunk and of its full overlap are in ascending height (`order`, `strip`). Each subchunk (`chunk`)
//! selects those of them that are near it (`sweep`, `sides`, `heights`). Each selected row is compared with those after
//! it (`pairs`). The rows that are near enough (`neighbour`) become pairs in both orders (`pair_orders`): pairs of rows
//! (`line`), or of the two ids alone if the query selects nothing else (`by_ids`). What a query demands of a pair is
//! computed once (`asked`, `reach`; `rising`, `bare`).
//!
//! Below: `chunk_store` for the rows of a chunk, of its overlap and of its subchunks, `overlap_tables` for whether a
//! subchunk holds a row, `expr_eval` for conditions and items, and `partial_merge` for the piece. This crate merges
//! nothing: an order and a LIMIT are left to the piece.
#![tactic(auto)]

mod asked;
mod bare;
mod by_ids;
mod chunk;
pub mod heights;
pub mod laws;
mod line;
mod neighbour;
mod order;
mod pair_orders;
mod pairs;
mod reach;
mod rising;
mod sides;
mod strip;
mod sweep;

pub use chunk::join;
pub use heights::window;
