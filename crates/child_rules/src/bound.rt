//! A bound query over a child table.

use sql_bound::Bound;

/// A bound query over the pairs of an object with one of its sources, which is the second row of the pair. `source_col`
/// gives the columns of a source. The two rows of a pair are of one object, whether a condition says so or not.
#[derive(Drop)]
pub struct ChildBound {
    pub bound: Bound,
}
