//! The rewriter: a bound query is split into the query of each chunk and the merge of the chunks' results.
//!
//! Callers see `rewrite` as the split that `answer_rules` defines, and a copy as equal to what it copies. Below:
//! `sql_bound` for the query's trees, `answer_rules` for the meaning of the two parts. The two parts have trees of
//! their own, so that they outlive the query. Which chunks are scanned is not decided here.
#![tactic(auto)]

mod bound;
mod cond;
mod cut;
mod expr;
mod items;
mod order;
mod query;

pub use bound::copy_of_bound;
pub use cut::rewrite;
pub use query::copy_of;
