//! The six checks of a written query: its first fault, or none. Does not allocate.
//!
//! The main call is `first_fault`, which returns what `bind_rules` defines as the first fault (`fault_by`). What the
//! names of a query refer to comes from outside, as a type with `Columns`: the object table is one. The crate also
//! contains what both the checks and the building of a bound query need: whether a query is a join, or is grouped; the
//! alias that an order key refers to. Four checks are public apart, for joins of another form: `first_unknown`,
//! `is_query_qualified`, `has_no_chord` and `fault_after_join`. Below: `query_walks` for walks over a query, `sql_tree`
//! for the written query, `sql_bound` for its columns, `bind_rules` for the faults and the checks. No bound query:
//! nothing is built here.
#![tactic(auto)]

mod area_forms;
mod checks;
mod columns;
mod cond_names;
mod expr_widths;
mod forms;
mod grouping;
mod names;
mod order_key;
mod qualified;
mod unknown;
mod widths;

pub use checks::{fault_after_join, first_fault};
pub use columns::{Columns, is_join, is_qualifier, qualifier};
pub use forms::has_no_chord;
pub use grouping::is_grouped;
pub use names::first_unknown;
pub use order_key::alias_place;
pub use qualified::is_query_qualified;
pub use query_walks::{ColumnTest, Gather, TestRef, area_test, int_value, walk};
