//! The SQL parser: a text becomes its one tree, or its first fault.
//!
//! Callers see one call, `read`, which returns what `sql_rules` defines as the tree of a text (`tree_of`). Below:
//! `sql_token` for tokens, `sql_rules` for the grammar. There is no schema and no meaning here: a name is read as it is
//! written, whether or not a table has it.
#![tactic(auto)]

mod ahead;
mod clauses;
mod conds;
mod exprs;
mod items;
mod preds;
mod query;
mod skip;

pub use query::read;
pub use sql_rules::SqlFault;
