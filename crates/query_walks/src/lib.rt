//! Walks over a written query: over its columns, its tests and its expressions. Does not allocate.
//!
//! A walk calls a test that its caller gives, and ends at the first place that meets it (`column_search`,
//! `expr_search`, `cond_search`); or it gathers the tests of WHERE (`tests_in`). What the checks and the binders both
//! make of an area test is here too: its written integers as numbers, and the test that they make (`arguments`). Below:
//! `sql_tree` for the written query, `bind_rules` for what is searched for. No faults and no checks.
#![tactic(auto)]

mod arguments;
pub mod column_search;
mod cond_search;
pub mod expr_search;
pub mod item_exprs;
pub mod tests_in;

pub use arguments::{area_test, int_value};
pub use column_search::ColumnTest;
pub use tests_in::{Gather, TestRef, walk};
