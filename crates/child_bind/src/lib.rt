//! The binder of queries over objects and their sources: a written query becomes its bound query, or its first fault.
//!
//! Callers see one call, `bind_child`, whose result is what `child_bind_rules` defines (`child_bound_of`). The checks and
//! the building of a bound query are those of `bind_checks` and `sql_bind`, over the names of both tables (`Columns`). What
//! is checked here alone is the form of the join, with one conjunct that equates the two ids. Below: `sql_tree` for the
//! written query, `sky_row` and `source_row` for the schemas, `child_rules` for the bound query, `sky_io` for out of
//! memory. No rows and no plan.
#![tactic(auto)]

mod binder;
mod checks;
mod form;
mod join_condition;
mod scope;

pub use bind_rules::BindFault;
pub use binder::bind_child;
pub use child_rules::ChildBound;
