//! The blocks of an explain text: for each query its chunks, the query of a chunk, and the merge of the pieces.
//!
//! Callers see what a call writes as its text, appended to the sink. `transcript_rules` defines it. The line of the chunk
//! query is written by `chunk_query`, that of the merge by `merged`, each from the parts of the written query and of its
//! plan. Below: `column_text` for columns, `sql_print` for parts of queries. No answers. Allocates nothing.
#![tactic(auto)]

mod chunk_items;
mod chunk_order;
mod chunk_query;
pub mod explained;
mod group_parts;
mod key_exprs;
mod merge_order;
mod merged;
mod merged_items;

pub use explained::{Explained, put_explain};
