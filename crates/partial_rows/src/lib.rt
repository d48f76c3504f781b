//! The rows of a partial result: a multiset with a sort key for each row, and its table.
//!
//! Callers see a `Multiset` as its rows, in any order, and its limit (`MultisetView`). A scan makes the sort key of
//! each row (`Rank`) from its order key. A multiset keeps either all rows (`unlimited_rows`; `compact_row` and `ranked`
//! are its two kinds) or the first n (`heap`). Their values are in one list (`buffer_cells`, `cell`), from which the
//! values of dropped rows are removed (`vacuum`). Pairs whose values are their own two ids are stored
//! apart (`id_pairs`), each packed into one number: of 64 bits if its ids are small (`pair_key`), of 128 bits if not
//! (`id_pair`). A multiset becomes a table in `multiset_table`: its rows in `buffer_table`, such pairs in `pair_table` and
//! `short_pair_table`. Compact rows are sorted by packed keys if their ids are small (`row_keys`).
//!
//! Below: `answer_table` for the table, `answer_rules` for the order of rows and the lemmas. No groups, no chunks.
#![tactic(auto)]

mod buffer_cells;
mod buffer_table;
mod cell;
mod compact_row;
mod heap;
mod id_pair;
mod id_pairs;
pub mod multiset;
mod multiset_table;
mod pair_key;
mod pair_table;
pub mod rank;
mod ranked;
mod row_buffer;
mod row_keys;
mod row_table;
mod short_pair_table;
mod unlimited_rows;
mod vacuum;

pub use rank::{Rank, rank_class, rank_value};
