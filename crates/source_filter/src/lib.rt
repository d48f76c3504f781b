//! The filter of a chunk's sources: which of them a child query may still pair with their objects, found by conditions
//! on the source alone.
//!
//! Callers see `candidates`: the numbers of sources, ascending. Each source that is not among them fails a condition of
//! the query with its object (`specs/Candidates.antt`). A condition that compares one column of a source with numbers
//! (`column_test`, `source_column`) is evaluated by the kernels of `lane_filter` on all sources at once (`kernel`). If one
//! names objects (`object`), their sources are found by objectId alone (`id_scan`). Other conditions are left to the
//! evaluator of pairs.
//!
//! Below: `source_row` for the columns of sources, `lane_filter` for masks, `expr_eval` for the number that a condition
//! compares with, and `child_rules` for the pair of a source with its object. No objects and no pairs are read here.
#![tactic(auto)]

mod column_test;
mod filter;
mod id_scan;
mod kernel;
mod object;
mod source_column;
mod test;

pub use filter::candidates;
