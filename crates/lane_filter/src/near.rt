//! Tests of positions against a cap.
ghost use Rattle.std.specs.Prelude.{◌≡◌, ℤ, ◌≤ℤ◌, ◌^◌, ◌+ℤ◌, ◌-ℤ◌, All, int_le, length, get_or, pos};
ghost use Rattle.sky_vector.specs.Points.{IsWithin, square};
ghost use Rattle.sky_vector.specs.Pos.{point};
ghost use Rattle.sky_vector.specs.declared.limits.TheConstants.{CHORD_SQUARED_MOST};
ghost use Rattle.lane_filter.specs.Tests.{IsGap, IsKeptBy, IsSquare, is_near};

use sky_vector::Pos;
use sky_vector::limits::CHORD_SQUARED_MOST;

/// Clears the mask at each row whose squared chord from the position to the centre is above n, in squared grid units.
/// The differences are computed in 32 bits, which hold them, and squared in 64. Does not allocate.
pub fn keep_near(xs: &[i32], ys: &[i32], zs: &[i32], centre: &Pos, n: u64, mask: &mut [bool])
    requires of_x { length xs.now ≡ length mask.old }
    requires of_y { length ys.now ≡ length mask.old }
    requires of_z { length zs.now ≡ length mask.old }
    requires x { All IsWithin xs.now }
    requires y { All IsWithin ys.now }
    requires z { All IsWithin zs.now }
    ensures len { length mask.new ≡ length mask.old }
    ensures each { IsKeptBy (λ k. is_near (point centre.now) (pos n)
        (get_or xs.now k (pos 0)) (get_or ys.now k (pos 0)) (get_or zs.now k (pos 0))) mask.old mask.new }
{
    let cap = Cap {
        a: narrow(centre.x),
        b: narrow(centre.y),
        c: narrow(centre.z),
        limit: limit_of(n),
    };
    keep_in(xs, ys, zs, cap, mask);
}

/// A cap: the components of its centre, and the largest squared chord of a position in it to the centre.
#[derive(Clone, Copy)]
struct Cap {
    a: i32,
    b: i32,
    c: i32,
    limit: i64,
}

/// Clears the mask at each row whose position is outside of the cap.
#[inline(always)]
fn keep_in(xs: &[i32], ys: &[i32], zs: &[i32], cap: Cap, mask: &mut [bool])
    requires of_x { length xs.now ≡ length mask.old }
    requires of_y { length ys.now ≡ length mask.old }
    requires of_z { length zs.now ≡ length mask.old }
    requires x { All IsWithin xs.now }
    requires y { All IsWithin ys.now }
    requires z { All IsWithin zs.now }
    requires a { IsWithin cap.a }
    requires b { IsWithin cap.b }
    requires c { IsWithin cap.c }
    ensures len { length mask.new ≡ length mask.old }
    ensures each { IsKeptBy (λ k. is_near (record { x = cap.a; y = cap.b; z = cap.c }) cap.limit
        (get_or xs.now k (pos 0)) (get_or ys.now k (pos 0)) (get_or zs.now k (pos 0))) mask.old mask.new }
{
    for i in 0..xs.len() {
        mask[i] = mask[i] & is_in(xs[i], ys[i], zs[i], cap);
    }
}

/// Returns a limit in 63 bits that accepts the same squared chords as n, since none is above the largest.
fn limit_of(n: u64) -> i64
    ensures { (chord : ℤ) → chord ≤ℤ pos CHORD_SQUARED_MOST
        → int_le chord result ≡ int_le chord (pos n) }
{
    if n < CHORD_SQUARED_MOST {
        n as i64
    } else {
        CHORD_SQUARED_MOST as i64
    }
}

/// Returns a component of a position in 32 bits.
fn narrow(part: i64) -> i32
    requires { IsWithin part }
    ensures value { result ≡ part }
    ensures within { IsWithin result }
{
    part as i32
}

/// Returns whether a position is in the cap.
#[inline(always)]
#[tactic(auto, unfolding(crate::specs::Tests::is_near))]
fn is_in(x: i32, y: i32, z: i32, cap: Cap) -> bool
    requires x { IsWithin x }
    requires y { IsWithin y }
    requires z { IsWithin z }
    requires a { IsWithin cap.a }
    requires b { IsWithin cap.b }
    requires c { IsWithin cap.c }
    ensures { result ≡ is_near (record { x = cap.a; y = cap.b; z = cap.c }) cap.limit x y z }
{
    chord(x, y, z, cap.a, cap.b, cap.c) <= cap.limit
}

/// Returns the squared chord between two positions.
#[inline(always)]
fn chord(x: i32, y: i32, z: i32, a: i32, b: i32, c: i32) -> i64
    requires x { IsWithin x }
    requires y { IsWithin y }
    requires z { IsWithin z }
    requires a { IsWithin a }
    requires b { IsWithin b }
    requires c { IsWithin c }
    ensures { result ≡ square (x -ℤ a) +ℤ square (y -ℤ b) +ℤ square (z -ℤ c) }
{
    added(gap_squared(x, a), gap_squared(y, b), gap_squared(z, c))
}

/// Returns the square of the difference of two components. The difference is computed in 32 bits.
#[inline(always)]
fn gap_squared(a: i32, b: i32) -> i64
    requires a { IsWithin a }
    requires b { IsWithin b }
    ensures value { result ≡ square (a -ℤ b) }
    ensures limits { IsSquare result }
{
    squared(i64::from(a - b))
}

/// Returns the square of a difference of two components.
#[inline(always)]
fn squared(gap: i64) -> i64
    requires { IsGap gap }
    ensures value { result ≡ square gap }
    ensures limits { IsSquare result }
{
    gap * gap
}

/// Returns the sum of three such squares, at most 3 * 2^60.
#[inline(always)]
fn added(a: i64, b: i64, c: i64) -> i64
    requires a { IsSquare a }
    requires b { IsSquare b }
    requires c { IsSquare c }
    ensures { result ≡ a +ℤ b +ℤ c }
{
    a + b + c
}
