//! A direction of the plane, and on which side of it and how near to it a position is.

ghost use Rattle.std.specs.Prelude.{◌≡◌, ◌↔◌, ◌-ℤ◌, ◌*ℤ◌, ◌≤◌, ◌^◌, IfNone, IfSome, IsTrue, pos, unsigned_abs};
ghost use Rattle.sky_vector.specs.Points.{IsWithin, square};
ghost use Rattle.sky_vector.specs.declared.limits.TheConstants.{CHORD_SQUARED_MOST};
ghost use Rattle.sky_vector.specs.Plane.{IsNearLine, length_squared, plane_product};

use crate::grid::{is_within, part_squared, product};
use crate::position::Pos;

/// A direction of the plane of x and y, as the point that it leads to from the centre.
#[derive(Clone, Copy, Debug, PartialEq, Eq)]
pub struct Dir {
    pub dx: i64,
    pub dy: i64,
    pub ghost dx_within: { IsWithin dx },
    pub ghost dy_within: { IsWithin dy },
}

impl Dir {
    /// The direction with these parts, or `None` if one is outside ±2^29. Does not allocate.
    pub fn new(dx: i64, dy: i64) -> Option<Dir>
        ensures made { IfSome result (λ d. (d.dx ≡ dx) × (d.dy ≡ dy)) }
        ensures none { IfNone result ((IsWithin dx × IsWithin dy) → ⊥) }
    {
        if is_within(dx) && is_within(dy) {
            Some(Dir { dx, dy })
        } else {
            None
        }
    }
}

/// The plane product of a direction and a position: above 0 if the position is left of the direction by less than half
/// a turn, and 0 on the direction's line. Its size is at most 2^59. Does not allocate.
pub fn cross(d: &Dir, p: &Pos) -> i64
    ensures value { result ≡ plane_product d.now.dx d.now.dy p.now.x p.now.y }
    ensures size { unsigned_abs result ≤ 2 ^ 59 }
{
    difference(product(d.dx, p.y), product(d.dy, p.x))
}

/// The plane product of two directions: above 0 if the second is left of the first by less than half a turn, and 0 on
/// the first one's line. Its size is at most 2^59. Does not allocate.
pub fn turn(a: &Dir, b: &Dir) -> i64
    ensures value { result ≡ plane_product a.now.dx a.now.dy b.now.dx b.now.dy }
    ensures size { unsigned_abs result ≤ 2 ^ 59 }
{
    difference(product(a.dx, b.dy), product(a.dy, b.dx))
}

/// Whether the position is, in the plane, no farther from the direction's line than the root of n. The unit of n is
/// squared grid units, and n is at most 2^62. Compares squares. Does not allocate.
pub fn within(d: &Dir, p: &Pos, n: u64) -> bool
    requires { n ≤ CHORD_SQUARED_MOST }
    ensures { IsTrue result ↔ IsNearLine d.now.dx d.now.dy p.now.x p.now.y (pos n) }
{
    squared(cross(d, p)) <= scaled(squared_length(d), n)
}

/// The difference of two products of parts, each of size at most 2^58.
fn difference(a: i64, b: i64) -> i64
    requires a_size { unsigned_abs a ≤ 2 ^ 58 }
    requires b_size { unsigned_abs b ≤ 2 ^ 58 }
    ensures value { result ≡ a -ℤ b }
    ensures size { unsigned_abs result ≤ 2 ^ 59 }
{
    a - b
}

/// The squared length of a direction.
fn squared_length(d: &Dir) -> u64
    ensures value { pos result ≡ length_squared d.now.dx d.now.dy }
    ensures most { result ≤ 2 ^ 59 }
{
    part_squared(d.dx) + part_squared(d.dy)
}

/// The square of a plane product, which can exceed 64 bits.
fn squared(a: i64) -> i128
    requires { unsigned_abs a ≤ 2 ^ 59 }
    ensures { result ≡ square a }
{
    let wide = a as i128;
    wide * wide
}

/// A squared length times the square of a distance, which can exceed 64 bits.
fn scaled(length: u64, n: u64) -> i128
    requires length_most { length ≤ 2 ^ 59 }
    requires n_most { n ≤ CHORD_SQUARED_MOST }
    ensures { result ≡ pos length *ℤ pos n }
{
    length as i128 * n as i128
}
