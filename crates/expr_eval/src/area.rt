//! Whether a position is in an area of the sky.

ghost use Rattle.std.specs.Prelude.{◌&&◌, ◌≡◌, int_le, not, pos};
ghost use Rattle.std.specs.Ordering.{int_eq};
ghost use Rattle.sky_vector.specs.Pos.{point};
ghost use Rattle.value_rules.specs.Areas.{area_holds, between_dirs, in_band, past_dir};

use sky_vector::{Dir, Pos, chord2, cross};
use sql_bound::AreaTest;

/// Returns whether the area contains the position. Does not allocate.
pub fn area_holds(area: &AreaTest, at: &Pos) -> bool
    ensures { result ≡ area_holds area.now (point at.now) }
{
    match area {
        AreaTest::Band { lo, hi } => in_band(*lo, *hi, at.z),
        AreaTest::Cap { centre, n } => chord2(at, centre) <= n.get(),
        AreaTest::Boxed { lo, hi, a, b } => in_band(*lo, *hi, at.z) && between_dirs(a, b, at),
    }
}

// Returns whether the height is from lo to hi.
fn in_band(lo: i64, hi: i64, z: i64) -> bool
    ensures { result ≡ in_band lo hi z }
{
    lo <= z && z <= hi
}

// Returns whether the position is off the axis, at or past the direction a, and not past the direction b.
fn between_dirs(a: &Dir, b: &Dir, at: &Pos) -> bool
    ensures { result ≡ between_dirs a.now b.now (point at.now) }
{
    !is_on_axis(at) && has_reached(a, at) && !is_past(b, at)
}

// Returns whether x and y are 0.
fn is_on_axis(at: &Pos) -> bool
    ensures { result ≡ (int_eq at.now.x (pos 0) && int_eq at.now.y (pos 0)) }
{
    at.x == 0 && at.y == 0
}

// Returns whether the position is at or past the direction.
fn has_reached(d: &Dir, at: &Pos) -> bool
    ensures { result ≡ int_le (pos 0) (past_dir d.now (point at.now)) }
{
    0 <= cross(d, at)
}

// Returns whether the position is past the direction.
fn is_past(d: &Dir, at: &Pos) -> bool
    ensures { result ≡ not (int_le (past_dir d.now (point at.now)) (pos 0)) }
{
    0 < cross(d, at)
}
