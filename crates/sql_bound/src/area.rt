//! The tests from which the chunks of a query are chosen: areas of the sky, and lists of ids.

use crate::radius::SquaredRadius;
use sky_vector::{Dir, Pos};
use sqlite_items::Items;

/// A part of the sky that a query asks for.
#[derive(Clone, Copy, Debug, PartialEq, Eq)]
pub enum AreaTest {
    /// The heights from `lo` to `hi`.
    Band { lo: i64, hi: i64 },
    /// The points that are no farther from the centre than the root of n.
    Cap { centre: Pos, n: SquaredRadius },
    /// The points at heights from `lo` to `hi` between the directions a and b, with b less than half a turn to the left
    /// of a.
    Boxed { lo: i64, hi: i64, a: Dir, b: Dir },
}

/// The area tests of a query, in their order.
pub type Areas = Items<AreaTest>;

/// The ids of one id test.
pub type Ids = Items<i64>;

/// The id tests of a query, in their order.
pub type IdTests = Items<Ids>;
