//! The position of an object: at the height of its first draw, in the direction to which the next two make it lean.

ghost use Rattle.std.specs.Prelude.{◌≡◌, ◌+ℤ◌, ◌-ℤ◌, ◌*ℤ◌, ◌*◌, ◌<◌, ◌≤◌, ◌^◌, IsTrue, ◌&&◌};
ghost use Rattle.std.specs.Prelude.{nat_abs, pos, unsigned_abs};
ghost use Rattle.demo_rules.specs.DemoRows.{cut_quotient, kept_point, leaning_point, on_meridian};
ghost use Rattle.demo_rules.specs.declared.limits.TheConstants.{MODULUS};
ghost use Rattle.sky_generate.specs.Places.{StandsBy, height_by, lean_by};
ghost use Rattle.sky_vector.specs.Points.{is_admissible, is_coordinate, square};
ghost use Rattle.sky_vector.specs.Pos.{point};
ghost use Rattle.sky_vector.specs.Roots.{IsRoot};
ghost use Rattle.sky_vector.specs.declared.limits.TheConstants.{RADIUS};

use demo_rules::limits::{HEIGHTS, LEAN_MIDDLE};
use sky_vector::limits::{COORDINATE_MOST, RADIUS};
use sky_vector::{Pos, isqrt, length_ok};

/// Returns the position of the object with these draws.
pub(crate) fn place(height: u64, lean_x: u64, lean_y: u64) -> Pos
    requires x { lean_x < MODULUS }
    requires y { lean_y < MODULUS }
    ensures stands { StandsBy height lean_x lean_y (point result) }
    ensures admissible { IsTrue (is_admissible (point result)) }
{
    let z = height_by(height);
    let u = lean_by(lean_x);
    let v = lean_by(lean_y);
    leaning(z, u, v, from_axis(z), length_of(u, v))
}

/// Returns the height that a draw gives, at most the radius up or down.
fn height_by(draw: u64) -> i64
    ensures value { result ≡ height_by draw }
    ensures size { unsigned_abs result ≤ RADIUS }
{
    (draw % HEIGHTS) as i64 - RADIUS as i64
}

/// Returns how far a draw makes an object lean, at most 2^30.
fn lean_by(draw: u64) -> i64
    requires { draw < MODULUS }
    ensures value { result ≡ lean_by draw }
    ensures size { unsigned_abs result ≤ 2 ^ 30 }
{
    draw as i64 - LEAN_MIDDLE as i64
}

/// Returns how far from the axis the sphere is at this height, at most the radius.
#[tactic(auto, using(crate::proofs::Roots::below_the_sphere, crate::proofs::Roots::root_is_short))]
fn from_axis(z: i64) -> u64
    requires { unsigned_abs z ≤ RADIUS }
    ensures root { IsRoot (nat_abs (pos (RADIUS * RADIUS) -ℤ square z)) result }
    ensures size { result ≤ RADIUS }
{
    isqrt(RADIUS * RADIUS - height_squared(z))
}

/// Returns the length of the direction (u, v), rounded down.
#[tactic(auto, using(crate::proofs::Roots::both_squares))]
fn length_of(u: i64, v: i64) -> u64
    requires u_size { unsigned_abs u ≤ 2 ^ 30 }
    requires v_size { unsigned_abs v ≤ 2 ^ 30 }
    ensures { IsRoot (nat_abs (square u +ℤ square v)) result }
{
    isqrt(lean_squared(u) + lean_squared(v))
}

/// Returns the square of a height, at most that of the radius.
fn height_squared(z: i64) -> u64
    requires { unsigned_abs z ≤ RADIUS }
    ensures value { pos result ≡ square z }
    ensures most { result ≤ RADIUS * RADIUS }
{
    let size = z.unsigned_abs();
    size * size
}

/// Returns the square of how far an object leans, at most 2^60.
fn lean_squared(lean: i64) -> u64
    requires { unsigned_abs lean ≤ 2 ^ 30 }
    ensures value { pos result ≡ square lean }
    ensures most { result ≤ 2 ^ 60 }
{
    let size = lean.unsigned_abs();
    size * size
}

/// Returns the point at a height that leans to (u, v), at the distance `from_axis` from the axis, where `long` is the
/// length of (u, v).
fn leaning(z: i64, u: i64, v: i64, from_axis: u64, long: u64) -> Pos
    requires u_size { unsigned_abs u ≤ 2 ^ 30 }
    requires v_size { unsigned_abs v ≤ 2 ^ 30 }
    requires far { from_axis ≤ RADIUS }
    ensures { point result ≡ leaning_point z u v from_axis long }
{
    if long == 0 {
        return meridian();
    }
    kept(
        cut(stretched(u, from_axis), long),
        cut(stretched(v, from_axis), long),
        z,
    )
}

/// Returns the product of how far an object leans and its distance from the axis.
fn stretched(lean: i64, by: u64) -> i64
    requires lean_size { unsigned_abs lean ≤ 2 ^ 30 }
    requires by_size { by ≤ RADIUS }
    ensures value { result ≡ lean *ℤ pos by }
    ensures size { unsigned_abs result ≤ 2 ^ 58 }
{
    lean * by as i64
}

/// Returns the number divided by a natural one, rounded towards zero.
fn cut(a: i64, by: u64) -> i64
    requires size { unsigned_abs a ≤ 2 ^ 58 }
    requires by { 0 < by }
    ensures { result ≡ cut_quotient a by }
{
    let size = (a.unsigned_abs() / by) as i64;
    if a < 0 { -size } else { size }
}

/// Returns the point of these components if it is a position of the sky, and else that on the first meridian.
fn kept(x: i64, y: i64, z: i64) -> Pos
    ensures { point result ≡ kept_point (record { x = x; y = y; z = z }) }
{
    match Pos::new(x, y, z) {
        Some(at) => kept_position(at),
        None => meridian(),
    }
}

/// Returns the position if its components are coordinates and it is admissible, and else that on the first meridian.
fn kept_position(at: Pos) -> Pos
    ensures { point result ≡ kept_point (point at) }
{
    if is_kept(&at) { at } else { meridian() }
}

/// Returns whether the position's components are coordinates, and it is admissible.
fn is_kept(at: &Pos) -> bool
    ensures { result ≡ (is_coordinate at.now.x && is_coordinate at.now.y
        && is_coordinate at.now.z && is_admissible (point at.now)) }
{
    are_coordinates(at) && length_ok(at)
}

/// Returns whether the position's components are coordinates.
fn are_coordinates(at: &Pos) -> bool
    ensures { result
        ≡ (is_coordinate at.now.x && is_coordinate at.now.y && is_coordinate at.now.z) }
{
    is_coordinate(at.x) && is_coordinate(at.y) && is_coordinate(at.z)
}

/// Returns whether the coordinate is within those of an admissible point.
fn is_coordinate(a: i64) -> bool
    ensures { result ≡ is_coordinate a }
{
    -(COORDINATE_MOST as i64) <= a && a <= COORDINATE_MOST as i64
}

/// Returns the position of the equator on the first meridian.
fn meridian() -> Pos
    ensures { point result ≡ on_meridian }
{
    Pos::new(RADIUS as i64, 0, 0).unwrap()
}
