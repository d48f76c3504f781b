//! Whether a position is near the sides of a part of the sky, computed without a branch. Rows that are adjacent in
//! height are in all directions, so that a branch would mostly be mispredicted.

ghost use Rattle.std.specs.Prelude.{◌≡◌, ◌≤◌, ◌||◌, int_le, int_lt, pos};
ghost use Rattle.sky_vector.specs.Pos.{point};
ghost use Rattle.wedge_rules.specs.Heading.{direction_shown, past};
ghost use Rattle.sky_rules.specs.Bounds.{near_side, near_sides};
ghost use Rattle.sky_rules.specs.declared.limits.TheConstants.{OVERLAP_MOST};
ghost use Rattle.sky_plan.specs.Regions.{sides_shown};

use sky_vector::{Dir, Pos, cross, within};

/// Returns whether the position is at or past the first side or near it, and short of the second side or near it. Does
/// not allocate.
#[inline(always)]
pub(crate) fn is_near(sides: Option<(Dir, Dir)>, radius: u32, p: &Pos) -> bool
    requires { radius ≤ OVERLAP_MOST }
    ensures { result ≡ near_sides radius (sides_shown sides) (point p.now) }
{
    match sides {
        None => true,
        Some((first, second)) => is_past(&first, radius, p) & is_short(&second, radius, p),
    }
}

/// Returns whether the position is at or past a direction, or near its line.
#[inline(always)]
fn is_past(side: &Dir, radius: u32, p: &Pos) -> bool
    requires { radius ≤ OVERLAP_MOST }
    ensures { result ≡ (int_le (pos 0) (past (direction_shown side.now) p.now.x p.now.y)
        || near_side radius (direction_shown side.now) (point p.now)) }
{
    (cross(side, p) >= 0) | is_near_line(side, radius, p)
}

/// Returns whether the position is short of a direction, or near its line.
#[inline(always)]
fn is_short(side: &Dir, radius: u32, p: &Pos) -> bool
    requires { radius ≤ OVERLAP_MOST }
    ensures { result ≡ (int_lt (past (direction_shown side.now) p.now.x p.now.y) (pos 0)
        || near_side radius (direction_shown side.now) (point p.now)) }
{
    (cross(side, p) < 0) | is_near_line(side, radius, p)
}

/// Returns whether the position is, in the plane, no farther than the radius from the line of a direction.
#[inline(always)]
fn is_near_line(side: &Dir, radius: u32, p: &Pos) -> bool
    requires { radius ≤ OVERLAP_MOST }
    ensures { result ≡ near_side radius (direction_shown side.now) (point p.now) }
{
    let size = u64::from(radius);
    within(side, p, size * size)
}
