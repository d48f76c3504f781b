//! The range of a coordinate, and products within it.

ghost use Rattle.std.specs.Prelude.{◌≡◌, ◌↔◌, ◌*ℤ◌, ◌-ℤ◌, ◌≤◌, ◌≤ℤ◌, ◌^◌, IsTrue, pos, unsigned_abs};
ghost use Rattle.sky_vector.specs.Points.{IsWithin, square};

use crate::limits::PART_MOST;

/// The largest size of a part, in grid units.
const MOST: i64 = PART_MOST as i64;

/// Whether a part of a position or of a direction is from -2^29 to 2^29.
pub(crate) fn is_within(part: i64) -> bool
    ensures { IsTrue result ↔ IsWithin part }
{
    -MOST <= part && part <= MOST
}

/// The product of two parts, of a size of at most 2^58.
pub(crate) fn product(a: i64, b: i64) -> i64
    requires a_within { IsWithin a }
    requires b_within { IsWithin b }
    ensures value { result ≡ a *ℤ b }
    ensures size { unsigned_abs result ≤ 2 ^ 58 }
{
    a * b
}

/// The square of a part, at most 2^58.
pub(crate) fn part_squared(part: i64) -> u64
    requires { IsWithin part }
    ensures value { pos result ≡ square part }
    ensures most { result ≤ 2 ^ 58 }
{
    let size = part.unsigned_abs();
    size * size
}

/// The square of the difference of two parts, at most 2^60.
pub(crate) fn gap_squared(a: i64, b: i64) -> u64
    requires a_within { IsWithin a }
    requires b_within { IsWithin b }
    ensures value { pos result ≡ square (a -ℤ b) }
    ensures most { result ≤ 2 ^ 60 }
{
    let gap = a.abs_diff(b);
    gap * gap
}
