//! Whether the overlap of a query's chunks allows its join.

ghost use Rattle.std.specs.Prelude.{◌≡◌, ◌<◌, ◌≤◌, ◌*◌, All, IfErr, IfOk, None, Some, map, min, pos};
ghost use Rattle.std.specs.List.{fold};
ghost use Rattle.sky_rules.specs.Partition.{chunk_count, overlap_at};
ghost use Rattle.sky_rules.specs.declared.limits.TheConstants.{OVERLAP_MOST};
ghost use Rattle.answer_rules.specs.Plans.{above_radius, overlap_of, radius_by};

use answer_rules::Radius;
use scan_rules::ChunkSet;
use sky_plan::SkyPlan;
use sql_bound::{Bound, Shape};

/// Checks whether a join's limit is at most the square of the least overlap radius of these chunks, or of all chunks if
/// there are none. A refusal has the limit and that square, in squared grid units. Does not allocate.
pub fn radius_ok(bound: &Bound, sky: &SkyPlan, chunks: &ChunkSet) -> Result<(), Radius>
    requires { All (λ c. c < chunk_count sky.now) chunks.now }
    ensures ok { IfOk result (λ _.
        radius_by bound.now.shape (overlap_of sky.now chunks.now) ≡ None) }
    ensures err { IfErr result (λ refused.
        radius_by bound.now.shape (overlap_of sky.now chunks.now) ≡ Some refused) }
{
    match &bound.shape {
        Shape::Rows => Ok(()),
        Shape::Pairs { limit } => within(*limit, least_overlap(sky, chunks.as_slice())),
        Shape::Groups { keys } => Ok(()),
    }
}

/// Checks whether the limit is at most the square of the radius.
fn within(limit: i64, radius: u32) -> Result<(), Radius>
    requires { radius ≤ OVERLAP_MOST }
    ensures ok { IfOk result (λ _. above_radius limit radius ≡ None) }
    ensures err { IfErr result (λ refused. above_radius limit radius ≡ Some refused) }
{
    let allowed = squared(radius);
    if allowed < limit {
        Err(Radius {
            asked: limit,
            allowed,
        })
    } else {
        Ok(())
    }
}

/// Returns the square of a radius.
fn squared(radius: u32) -> i64
    requires { radius ≤ OVERLAP_MOST }
    ensures { result ≡ pos (radius * radius) }
{
    let wide = u64::from(radius);
    (wide * wide) as i64
}

/// Returns the least overlap radius of these chunks, or of all if there are none.
fn least_overlap(sky: &SkyPlan, chunks: &[u32]) -> u32
    requires { All (λ c. c < chunk_count sky.now) chunks.now }
    ensures value { result ≡ overlap_of sky.now chunks.now }
    ensures most { result ≤ OVERLAP_MOST }
{
    match chunks {
        [] => sky.least_radius(),
        [first, rest @ ..] => least_from(sky, sky.radius_of(*first), rest),
    }
}

/// Returns the least of a radius and those of these chunks.
fn least_from(sky: &SkyPlan, radius: u32, chunks: &[u32]) -> u32
    requires radius { radius ≤ OVERLAP_MOST }
    requires there { All (λ c. c < chunk_count sky.now) chunks.now }
    ensures value { result ≡ fold min radius (map (overlap_at sky.now) chunks.now) }
    ensures most { result ≤ OVERLAP_MOST }
{
    let mut least = radius;
    for chunk in chunks {
        least = least.min(sky.radius_of(*chunk));
    }
    least
}
