//! How near the two rows of a pair have to be: the limit of their squared chord, and its root, which is computed once.
//! Also whether the lower id has to come first, and whether the query is bare.

ghost use Rattle.std.specs.Prelude.{◌≡◌, ◌≤ℤ◌, ◌^◌, IsTrue, negsuc, pos};
ghost use Rattle.near_join.specs.Bare.{IsBare};
ghost use Rattle.near_join.specs.Rising.{Rises};
ghost use Rattle.near_join.specs.Sound.{limit_in};
ghost use Rattle.near_join.specs.Windows.{IsRoot};

use crate::bare::is_bare;
use crate::heights::root;
use crate::rising::rises;
use answer_rules::ChunkQuery;
use sql_bound::Shape;

/// The largest squared chord, in squared grid units, which is -1 if no pair is asked for; the largest difference in
/// height whose square is at most that; whether the conditions hold only for pairs whose first id is the lower one; and
/// whether the query is bare.
#[derive(Clone, Copy)]
pub(crate) struct Reach {
    pub limit: i64,
    pub root: i64,
    pub rises: bool,
    pub bare: bool,
    pub ghost limit_least: { negsuc 0 ≤ℤ limit },
    pub ghost is_root: { IsRoot limit root },
    pub ghost root_least: { negsuc 0 ≤ℤ root },
    pub ghost root_most: { root ≤ℤ pos (2 ^ 32) },
}

impl Reach {
    /// Returns the reach of a query over pairs. Any other query finds no pair.
    pub(crate) fn of(query: &ChunkQuery) -> Reach
        requires { negsuc 0 ≤ℤ limit_in query.now.shape }
        ensures limit { result.limit ≡ limit_in query.now.shape }
        ensures rises { IsTrue result.rises → Rises query.now.conds }
        ensures bare { IsTrue result.bare → IsBare result.rises query.now }
    {
        let limit = limit_of(&query.shape);
        let upwards = rises(query.conds.as_slice());
        Reach {
            limit,
            root: root(limit),
            rises: upwards,
            bare: is_bare(query, upwards),
        }
    }
}

/// Returns the largest squared chord of a query over pairs, or -1 for any other.
fn limit_of(shape: &Shape) -> i64
    ensures { result ≡ limit_in shape.now }
{
    match shape {
        Shape::Pairs { limit } => *limit,
        _ => -1,
    }
}
