//! What a kernel evaluates on a row.

use sky_vector::Pos;
use sql_bound::SquaredRadius;
use sql_tree::Cmp;

/// A predicate that a kernel evaluates on all rows of a block: of a column, by its number among all columns, or of the
/// position.
#[derive(Clone, Copy, Drop)]
pub(crate) enum Predicate {
    /// The value compares so with n, and is not NULL.
    Compare { col: u32, op: Cmp, n: i64 },
    /// The value is from `low` to `high`, and is not NULL.
    Range { col: u32, low: i64, high: i64 },
    /// The value is not NULL.
    Present { col: u32 },
    /// The value is NULL.
    Absent { col: u32 },
    /// The squared chord from the position to the centre is at most n.
    Near { centre: Pos, n: SquaredRadius },
}

/// What a kernel can do for a condition. `test` holds on each row on which the condition holds, and if it is the
/// `whole` condition, on no other row.
#[derive(Clone, Copy, Drop)]
pub(crate) struct Vectorized {
    pub test: Predicate,
    pub whole: bool,
}
