//! Whether a position is in the near region of a chunk or of a subchunk.

ghost use Rattle.std.specs.Prelude.{◌≡◌, ◌<◌, ◌≤◌, ◌&&◌, ◌||◌, ◌+ℤ◌, ◌-ℤ◌, int_le, int_lt, pos};
ghost use Rattle.sky_vector.specs.Pos.{point};
ghost use Rattle.wedge_rules.specs.Heading.{direction_shown, past};
ghost use Rattle.sky_rules.specs.Partition.{chunk_count, sub_count};
ghost use Rattle.sky_rules.specs.Bounds.{near_chunk, near_side, near_sides, near_sub, near_bounds};
ghost use Rattle.sky_rules.specs.declared.limits.TheConstants.{OVERLAP_MOST};
ghost use Rattle.sky_plan.specs.Regions.{sides_shown, bounds_shown};

use sky_plan::{Region, SkyPlan};
use sky_vector::{Dir, Pos, cross, within};

/// Returns whether the position is in the near region of the chunk, for the overlap of the chunk's stripe. Positions in
/// the chunk are in it as well. Does not allocate.
pub fn in_near(plan: &SkyPlan, chunk: u32, p: &Pos) -> bool
    requires { chunk < chunk_count plan.now }
    ensures { result ≡ near_chunk plan.now chunk (point p.now) }
{
    is_near(&plan.region(chunk), plan.radius_of(chunk), p)
}

/// Returns whether the position is in the near region of the subchunk, for the overlap of the chunk's stripe. Positions
/// in the subchunk are in it as well. Does not allocate.
pub fn in_near_sub(plan: &SkyPlan, chunk: u32, sub: u32, p: &Pos) -> bool
    requires chunk { chunk < chunk_count plan.now }
    requires sub { sub < sub_count plan.now chunk }
    ensures { result ≡ near_sub plan.now chunk sub (point p.now) }
{
    is_near(&plan.sub_region(chunk, sub), plan.radius_of(chunk), p)
}

/// Returns whether the position is in the near region of a part of the sky, for a radius in grid units: within it, or
/// no farther than the radius from its heights and from the lines of its sides. Does not allocate.
pub fn is_near(region: &Region, radius: u32, p: &Pos) -> bool
    requires { radius ≤ OVERLAP_MOST }
    ensures { result ≡ near_bounds radius (bounds_shown region.now) (point p.now) }
{
    is_near_height(region, radius, p.z) && near_sides(region.sides, radius, p)
}

/// Returns whether the height is, up or down, no farther than the radius from those of the region.
fn is_near_height(region: &Region, radius: u32, z: i64) -> bool
    requires { radius ≤ OVERLAP_MOST }
    ensures { result ≡ (int_le (region.now.z_low -ℤ pos radius) z
        && int_le z (region.now.z_high +ℤ pos radius)) }
{
    reaches_down(region, radius, z) && reaches_up(region, radius, z)
}

/// Returns whether the height is no farther than the radius below the region's lowest.
fn reaches_down(region: &Region, radius: u32, z: i64) -> bool
    requires { radius ≤ OVERLAP_MOST }
    ensures { result ≡ int_le (region.now.z_low -ℤ pos radius) z }
{
    region.z_low - i64::from(radius) <= z
}

/// Returns whether the height is no farther than the radius above the region's highest.
fn reaches_up(region: &Region, radius: u32, z: i64) -> bool
    requires { radius ≤ OVERLAP_MOST }
    ensures { result ≡ int_le z (region.now.z_high +ℤ pos radius) }
{
    z <= region.z_high + i64::from(radius)
}

/// Returns whether the position is at or past the first side or near it, and short of the second or near it.
fn near_sides(sides: Option<(Dir, Dir)>, radius: u32, p: &Pos) -> bool
    requires { radius ≤ OVERLAP_MOST }
    ensures { result ≡ near_sides radius (sides_shown sides) (point p.now) }
{
    match sides {
        None => true,
        Some((first, second)) => past_or_near(&first, radius, p)
            && short_or_near(&second, radius, p),
    }
}

/// Returns whether the position is at or past a direction, or near its line.
pub(crate) fn past_or_near(side: &Dir, radius: u32, p: &Pos) -> bool
    requires { radius ≤ OVERLAP_MOST }
    ensures { result ≡ (int_le (pos 0) (past (direction_shown side.now) p.now.x p.now.y)
        || near_side radius (direction_shown side.now) (point p.now)) }
{
    cross(side, p) >= 0 || is_near_side(side, radius, p)
}

/// Returns whether the position is short of a direction, or near its line.
pub(crate) fn short_or_near(side: &Dir, radius: u32, p: &Pos) -> bool
    requires { radius ≤ OVERLAP_MOST }
    ensures { result ≡ (int_lt (past (direction_shown side.now) p.now.x p.now.y) (pos 0)
        || near_side radius (direction_shown side.now) (point p.now)) }
{
    cross(side, p) < 0 || is_near_side(side, radius, p)
}

/// Returns whether the position is, in the plane, no farther than the radius from the line of a direction.
pub(crate) fn is_near_side(side: &Dir, radius: u32, p: &Pos) -> bool
    requires { radius ≤ OVERLAP_MOST }
    ensures { result ≡ near_side radius (direction_shown side.now) (point p.now) }
{
    let size = u64::from(radius);
    within(side, p, size * size)
}
