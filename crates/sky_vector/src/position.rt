//! A position: a point of the grid whose parts are within ±2^29.

ghost use Rattle.std.specs.Prelude.{◌≡◌, IfNone, IfSome};
ghost use Rattle.sky_vector.specs.Points.{IsWithin};

use crate::grid::is_within;

/// A position in grid units; the sphere has the radius 2^28.
#[derive(Clone, Copy, Debug, PartialEq, Eq)]
pub struct Pos {
    pub x: i64,
    pub y: i64,
    pub z: i64,
    pub ghost x_within: { IsWithin x },
    pub ghost y_within: { IsWithin y },
    pub ghost z_within: { IsWithin z },
}

impl Pos {
    ghost use Rattle.sky_vector.specs.Pos.{point};

    /// The position with these parts, or `None` if one is outside ±2^29. Does not allocate.
    pub fn new(x: i64, y: i64, z: i64) -> Option<Pos>
        ensures made { IfSome result (λ p. point p ≡ record { x = x; y = y; z = z }) }
        ensures none { IfNone result ((IsWithin x × IsWithin y × IsWithin z) → ⊥) }
    {
        if is_within(x) && is_within(y) && is_within(z) {
            Some(Pos { x, y, z })
        } else {
            None
        }
    }
}
