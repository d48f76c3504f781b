//! The groups of a partial result: an aggregation table, rows that are not in a group yet, and their table at the end.
//!
//! Callers see `GroupedRows` as a list of groups, one for each key, with their aggregate states. It has an aggregation
//! table, and the numbers that are the keys of rows which are grouped at the end (`grouped_rows`, `number_lists`):
//! these are counted in a table of counts (`counting`), or sorted (`row_runs`). If the groups with the most rows come
//! first, only those that can be among the first n are made of a table of counts (`frequent`, `cutoff`). The groups of
//! an aggregation table are in one list (`group_entry`), their states in another (`tally`). The groups of another
//! aggregation table are added through cache entries, found by their keys, a batch at a time (`combine`, `candidates`,
//! `group_cache`). An aggregation table is consolidated when it has doubled (`doubling`, `consolidate`). It becomes a
//! table in `group_table`: its totals are checked (`totals`), its lines sorted (`lines`), and their items merged
//! (`merged`, `average`).
//!
//! Below: `group_key` for keys, `answer_table` for the table, `answer_rules` for groups and the lemmas, `expr_eval` for
//! expressions of keys. No rows, no chunks.
#![tactic(auto)]

pub mod aggregation_table;
mod average;
mod candidates;
mod combine;
mod consolidate;
mod counting;
mod cutoff;
mod doubling;
mod frequent;
mod group_cache;
mod group_entry;
mod group_table;
pub mod grouped_rows;
mod keyless_group;
mod line;
mod lines;
mod merged;
mod number_lists;
mod row_runs;
pub mod tally;
mod totals;

pub use tally::Tally;
