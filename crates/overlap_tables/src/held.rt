//! Whether a chunk contains a position, by a test of its bounds. The position may be any: if it is not admissible,
//! there may be no chunk that contains it, and a plan does not search for one.

ghost use Rattle.std.specs.Prelude.{◌≡◌, ◌<◌, ◌&&◌, pos, int_le, int_lt};
ghost use Rattle.sky_vector.specs.Pos.{point};
ghost use Rattle.wedge_rules.specs.Heading.{direction_shown, past};
ghost use Rattle.sky_rules.specs.Partition.{chunk_count};
ghost use Rattle.sky_rules.specs.Bounds.{in_chunk, in_sides, in_bounds, is_on_axis};
ghost use Rattle.sky_plan.specs.Regions.{sides_shown, bounds_shown};

use sky_plan::{Region, SkyPlan};
use sky_vector::{Dir, Pos, cross};

/// Returns whether the chunk contains the position, which may be any. Does not allocate.
pub(crate) fn is_held(plan: &SkyPlan, chunk: u32, p: &Pos) -> bool
    requires { chunk < chunk_count plan.now }
    ensures { result ≡ in_chunk plan.now chunk (point p.now) }
{
    is_in(&plan.region(chunk), p)
}

/// Returns whether a part of the sky contains the position, which may be any. Does not allocate.
pub fn is_in(region: &Region, p: &Pos) -> bool
    ensures { result ≡ in_bounds (bounds_shown region.now) (point p.now) }
{
    is_in_height(region, p.z) && is_in_sides(region.sides, region.axis, p)
}

/// Returns whether the height is one of the region's.
fn is_in_height(region: &Region, z: i64) -> bool
    ensures { result ≡ (int_le region.now.z_low z && int_le z region.now.z_high) }
{
    region.z_low <= z && z <= region.z_high
}

/// Returns whether the position is between the sides; on the axis `axis` decides.
fn is_in_sides(sides: Option<(Dir, Dir)>, axis: bool, p: &Pos) -> bool
    ensures { result ≡ in_sides (sides_shown sides) axis (point p.now) }
{
    match sides {
        None => true,
        Some((first, second)) => {
            if is_axis(p) {
                axis
            } else {
                is_between(&first, &second, p)
            }
        }
    }
}

/// Returns whether the position is on the axis x = y = 0.
fn is_axis(p: &Pos) -> bool
    ensures { result ≡ is_on_axis (point p.now) }
{
    p.x == 0 && p.y == 0
}

/// Returns whether the position is at or past the first direction and short of the second.
fn is_between(first: &Dir, second: &Dir, p: &Pos) -> bool
    ensures { result ≡ (int_le (pos 0) (past (direction_shown first.now) p.now.x p.now.y)
        && int_lt (past (direction_shown second.now) p.now.x p.now.y) (pos 0)) }
{
    cross(first, p) >= 0 && cross(second, p) < 0
}
