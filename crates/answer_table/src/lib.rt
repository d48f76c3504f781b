//! The table of an answer: its rows, whose values are in one list, and the lists that it is written from.
//!
//! Callers see a `Table` as a list of rows of values (`specs/Tables.antt`). Values are appended row by row (`values`). Each
//! is a `TableValue` of sixteen bytes, which callers see as its value (`specs/TableValues.antt`).
//! The steps on any list (`lists`) are here because the rows and the groups of partial results both take them.
//! Below: `answer_rules` for values. No rows of a chunk, no keys and no order.
#![tactic(auto)]

pub mod lists;
pub mod table;
pub mod table_value;
pub mod values;

pub use table::Table;
pub use table_value::TableValue;
