//! The filter of a chunk: which of its rows meet the conditions of a chunk query.
//!
//! Callers see `selection` as the numbers of these rows, and `mask` as a flag for each row. If a condition asks for ids,
//! its rows are found by bisection (`id_test`, `id_rows`); ids that the block's filter excludes are not searched for.
//! Otherwise conditions that are vectorizable predicates are evaluated first by the kernels of `lane_filter`, each of
//! which clears a mask, and the numbers of the remaining rows are listed. In both cases `column_eval` evaluates the other
//! conditions on these rows alone.
//!
//! What a scan reuses from one chunk to the next is in a `Scratch`. The scan for rows and the one for groups reuse the
//! same one, so it also has vectors for keys, which no filter needs. Below: `column_block` for the columns,
//! `lane_filter` and `column_eval` for what is computed a column at a time. No pieces: the two scans make them of the
//! selected rows.
#![tactic(auto)]

mod id_rows;
mod id_test;
mod kernel;
mod narrow;
mod predicate;
mod row_mask;
pub mod scratch;
pub mod selection;
mod vectorized;
mod vectorized_area;

pub use row_mask::mask;
pub use scratch::Scratch;
