//! The evaluator of a block: values of expressions and truth values of conditions on selected rows, a column at a time.
//!
//! Callers see two lists, with one entry for each selected row: of values (`ValueList`; `None` is NULL), or of truth
//! values (`TruthList`; `None` is unknown). Each entry is what `value_rules` defines for that row. `column_of` recognises
//! an expression that is a single column. Inside, each node of the tree is one loop over the vectors of `column_vectors`.
//!
//! Below: `column_vectors`, `column_block` for the columns, `sql_bound` for the trees, `value_rules` for their meaning;
//! `lane_filter` for comparisons with one number; `expr_eval`, which evaluates one row at a time, for area tests and for
//! lemmas on the levels of the trees. Not in it: pairs of rows, and tests of a column that `lane_filter` does faster.
#![tactic(auto)]

mod alone;
mod area;
mod cond;
mod expr;
mod picked;
mod pred;

pub use alone::column_of;
pub use column_vectors::{Pool, Scratch, TruthList, ValueList};
pub use cond::truths;
pub use expr::{listed_values, values};
