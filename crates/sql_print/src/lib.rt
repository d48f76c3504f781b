//! The printer of queries: writes the one printed text of a tree to a sink.
//!
//! Callers see what a call writes as the printed text that `sql_rules` defines, appended to the sink. Below: `sql_tree`
//! for trees, `sql_rules` for their printed texts, `sky_text` for numbers, `sky_io` for the sink. One function writes
//! one rule of the printed syntax, and does not allocate.
#![tactic(auto)]

mod conds;
mod exprs;
mod ints;
mod items;
mod parts;
mod preds;
mod query;

pub use conds::put_cond;
pub use exprs::put_expr;
pub use ints::{put_led_size, put_size};
pub use items::{put_call, put_heading, put_kind};
pub use parts::{put_col, put_if};
pub use query::{put_alias, put_cols, put_group, put_limit, put_query, put_where};
