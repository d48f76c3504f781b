//! The columns of rows in memory: a list for each column, and a row that is appended to them.
//!
//! Callers see a `Column` as its values, in which `None` is NULL, and a `Row` as an `Obj`. They see `Lists` as the rows
//! that the columns make up, in their order. A column stores its numbers, and where they are NULL (`nulls`). Rows can be
//! gathered by their row numbers, a column on each thread (`parallel`). Below: `table_rules` for what a row is,
//! `sky_vector` for positions. No names and no order of ids.
#![tactic(auto)]

mod cells;
pub mod column;
mod column_push;
mod further;
pub mod lists;
mod nulls;
mod parallel;
mod places;
pub mod row;

pub use column::Column;
pub use further::{columns_appended, columns_at, empty_columns};
pub use lists::Lists;
pub use places::gather;
pub use row::Row;
