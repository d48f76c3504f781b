//! Whether the centre of a cap is near enough to a region, by its heights and by each of its sides alone.
//!
//! Distances are compared as squares. A squared length times a cap's n may need more than 64 bits, so it has 128.

ghost use Rattle.std.specs.Prelude.{◌≡◌, ◌≤◌, ◌^◌, ◌&&◌, ◌||◌, ◌-ℤ◌, ◌*ℤ◌, int_le, int_lt, pos, unsigned_abs};
ghost use Rattle.sky_vector.specs.Points.{IsWithin, square};
ghost use Rattle.sky_vector.specs.Plane.{is_near_line, length_squared, plane_product};
ghost use Rattle.sky_plan.specs.Regions.{bounds_shown, sides_shown};
ghost use Rattle.answer_rules.specs.Plans.{cap_meets_heights, cap_meets_sides};

use sky_plan::Region;
use sky_vector::{Dir, Pos, cross};

/// Returns whether the centre is no farther below the region, above it, and beyond each of its sides, than the root of
/// n.
pub(crate) fn cap_meets(centre: &Pos, n: i64, region: &Region) -> bool
    ensures { result ≡ (cap_meets_heights centre.now n (bounds_shown region.now)
        && cap_meets_sides centre.now n (sides_shown region.now.sides)) }
{
    heights_meet(centre, n, region) && sides_meet(centre, n, &region.sides)
}

/// Returns whether the centre is no farther below the region, and no farther above it, than the root of n.
fn heights_meet(centre: &Pos, n: i64, region: &Region) -> bool
    ensures { result ≡ cap_meets_heights centre.now n (bounds_shown region.now) }
{
    is_at_most(region.z_low, centre.z, n) && is_at_most(centre.z, region.z_high, n)
}

/// Returns whether the first height is at most the second, or no farther above it than the root of n.
fn is_at_most(a: i64, b: i64, n: i64) -> bool
    requires a_within { IsWithin a }
    requires b_within { IsWithin b }
    ensures { result ≡ (int_le a b || int_le (square (a -ℤ b)) n) }
{
    a <= b || gap_squared(a, b) <= n
}

/// Returns the square of the difference of two heights, at most 2^60.
fn gap_squared(a: i64, b: i64) -> i64
    requires a_within { IsWithin a }
    requires b_within { IsWithin b }
    ensures { result ≡ square (a -ℤ b) }
{
    let gap = a - b;
    gap * gap
}

/// Returns whether the centre is at or past the first side and short of the second. For each side it may also be no
/// farther from that side's line than the root of n.
fn sides_meet(centre: &Pos, n: i64, sides: &Option<(Dir, Dir)>) -> bool
    ensures { result ≡ cap_meets_sides centre.now n (sides_shown sides.now) }
{
    match sides {
        None => true,
        Some((first, second)) => { has_reached(first, centre, n) && is_short_of(second, centre, n) }
    }
}

/// Returns whether the position is at or past the direction, or near its line.
fn has_reached(d: &Dir, p: &Pos, n: i64) -> bool
    ensures { result ≡ (int_le (pos 0) (plane_product d.now.dx d.now.dy p.now.x p.now.y)
        || is_near_line d.now.dx d.now.dy p.now.x p.now.y n) }
{
    0 <= cross(d, p) || is_near_line(d, p, n)
}

/// Returns whether the position is short of the direction, or near its line.
fn is_short_of(d: &Dir, p: &Pos, n: i64) -> bool
    ensures { result ≡ (int_lt (plane_product d.now.dx d.now.dy p.now.x p.now.y) (pos 0)
        || is_near_line d.now.dx d.now.dy p.now.x p.now.y n) }
{
    cross(d, p) < 0 || is_near_line(d, p, n)
}

/// Returns whether the position is, in the plane, no farther from the direction's line than the root of n.
fn is_near_line(d: &Dir, p: &Pos, n: i64) -> bool
    ensures { result ≡ is_near_line d.now.dx d.now.dy p.now.x p.now.y n }
{
    squared(cross(d, p)) <= scaled(length_squared(d), n)
}

/// Returns the square of a plane product.
fn squared(a: i64) -> i128
    requires { unsigned_abs a ≤ 2 ^ 59 }
    ensures { result ≡ square a }
{
    let wide = a as i128;
    wide * wide
}

/// Returns the squared length of a direction.
fn length_squared(d: &Dir) -> i64
    ensures value { result ≡ length_squared d.now.dx d.now.dy }
    ensures most { unsigned_abs result ≤ 2 ^ 59 }
{
    part_squared(d.dx) + part_squared(d.dy)
}

/// Returns the square of a component of a direction.
fn part_squared(part: i64) -> i64
    requires { IsWithin part }
    ensures value { result ≡ square part }
    ensures most { unsigned_abs result ≤ 2 ^ 58 }
{
    part * part
}

/// Returns a squared length times n.
fn scaled(length: i64, n: i64) -> i128
    requires { unsigned_abs length ≤ 2 ^ 59 }
    ensures { result ≡ length *ℤ n }
{
    length as i128 * n as i128
}
