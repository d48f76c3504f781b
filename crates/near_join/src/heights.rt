//! The window of a sweep by height. In ascending heights, those that are near enough to one height are adjacent. So two
//! binary searches find them, and a walk upwards from one of them may end at the first that is too high.

ghost use Rattle.std.specs.Prelude.{◌≡◌, ◌<◌, ◌≤ℤ◌, ◌^◌, ℤ, get_or, int_lt, length, pos, negsuc};
ghost use Rattle.sky_vector.specs.Points.{IsWithin};
ghost use Rattle.near_join.specs.Windows.{Ascend, IsBetween, IsRoot, IsWindow};

/// Returns the range of positions of the heights whose squared difference from z is at most the limit, in squared grid
/// units. The heights ascend. The second position is after the last, and the range is (0, 0) if there are none. Does
/// not allocate.
pub fn window(zs: &[i64], z: i64, limit: i64) -> (usize, usize)
    requires ascend { Ascend zs.now }
    requires z_within { IsWithin z }
    requires limit { negsuc 0 ≤ℤ limit }
    ensures { IsWindow zs.now z limit result.0 result.1 }
{
    within(zs, z, root(limit))
}

/// Returns the largest difference whose square is at most the limit, and -1 for a limit below 0.
pub(crate) fn root(limit: i64) -> i64
    requires { negsuc 0 ≤ℤ limit }
    ensures root { IsRoot limit result }
    ensures least { negsuc 0 ≤ℤ result }
    ensures most { result ≤ℤ pos (2 ^ 32) }
{
    if limit < 0 { -1 } else { limit.isqrt() }
}

/// Returns the window for the root of a limit.
pub(crate) fn within(zs: &[i64], z: i64, root: i64) -> (usize, usize)
    requires ascend { Ascend zs.now }
    requires z_within { IsWithin z }
    requires least { negsuc 0 ≤ℤ root }
    requires most { root ≤ℤ pos (2 ^ 32) }
    ensures { (limit : ℤ) → IsRoot limit root → IsWindow zs.now z limit result.0 result.1 }
{
    between(zs, z - root, z + root)
}

/// Returns the range of positions of the heights from low to high, or (0, 0) if there are none.
pub(crate) fn between(zs: &[i64], low: i64, high: i64) -> (usize, usize)
    requires { Ascend zs.now }
    ensures { IsBetween zs.now low high result.0 result.1 }
{
    let from = zs.partition_point(|a| *a < low);
    let to = zs.partition_point(|a| *a <= high);
    if from < to { (from, to) } else { (0, 0) }
}

/// Returns whether the height at this position is above the bound.
pub(crate) fn is_above(zs: &[i32], k: usize, high: i64) -> bool
    requires { k < length zs.now }
    ensures { result ≡ int_lt high (get_or zs.now k (pos 0)) }
{
    i64::from(zs[k]) > high
}

/// Returns the range of positions of the heights, which have 32 bits, from low to high, or (0, 0) if there are none.
pub(crate) fn between_narrow(zs: &[i32], low: i64, high: i64) -> (usize, usize)
    requires { Ascend zs.now }
    ensures { IsBetween zs.now low high result.0 result.1 }
{
    let from = zs.partition_point(|a| i64::from(*a) < low);
    let to = zs.partition_point(|a| i64::from(*a) <= high);
    if from < to { (from, to) } else { (0, 0) }
}
