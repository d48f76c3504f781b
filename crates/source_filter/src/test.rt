//! Tests of one value by numbers.

use sql_bound::BoundCol;
use sql_tree::Cmp;

/// A test of a value. NULL passes none.
#[derive(Clone, Copy, Drop)]
pub(crate) enum Test {
    /// The value compares so with n.
    Compare { op: Cmp, n: i64 },
    /// The value is from `low` to `high`.
    Range { low: i64, high: i64 },
}

/// A test of the value in a column of a pair.
#[derive(Clone, Copy, Drop)]
pub(crate) struct ColumnTest {
    pub col: BoundCol,
    pub test: Test,
}
