//! The order of ids, and the first id that repeats.
//!
//! Callers see ids as a list of numbers in the order of a text. The row numbers in the order of the ids are found by
//! radix partition into buckets (`deal`), by several threads for a range of ids each (`ranges`). The first id that an
//! earlier one equals is found by sorting (`repeats`), and is the fault of a table (`faults`). Below: `sky_row` for ids
//! packed with their row numbers, `table_rules` for what a repeat is. No rows: ids alone.
#![tactic(auto)]

mod deal;
mod faults;
mod ranges;
mod repeats;

pub use deal::dealt_places;
pub use faults::{first_fault, repeat_among};
pub use ranges::dealt_places_by;
