//! The scan of a chunk for a query of rows: the piece of the selected rows.
//!
//! Callers see one call, `row_piece`, and its piece as the rows that it has of the selected ones (`specs/Lines.antt`).
//! The order keys are computed a column at a time, and without a LIMIT also the values of the items (`all_rows`). With
//! a LIMIT n a row that comes after n others is skipped before its items are computed, and the order key of such a row
//! is the `cutoff`, by which most rows are skipped (`first_rows`). For a larger n a `sample` of the order keys suggests
//! another cutoff; if at least n rows are up to it, only the `candidates` that are not beyond it are offered. Below: `chunk_filter` for what scans reuse,
//! `column_eval` for columns of values, `expr_eval` for the values of one row, `partial_merge` for the piece. No
//! conditions and no groups.
#![tactic(auto)]

mod all_rows;
mod candidates;
mod columns;
mod cutoff;
mod first_rows;
mod line;
pub mod row_piece;
mod sample;
