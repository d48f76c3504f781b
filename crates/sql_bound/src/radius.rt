//! The squared radius of a cap.

ghost use Rattle.std.specs.Prelude.{◌≡◌, ◌≤◌, IfNone, IfSome, pos};
ghost use Rattle.sky_vector.specs.declared.limits.TheConstants.{CHORD_SQUARED_MOST};
ghost use Rattle.sql_bound.specs.Radii.{IsSquaredRadius};

use sky_vector::limits::CHORD_SQUARED_MOST;
use std::marker::Model;

/// A squared radius in squared grid units, from 0 to 2^62.
#[derive(Clone, Copy, Debug, PartialEq, Eq)]
pub struct SquaredRadius {
    value: i64,
}

impl Model for SquaredRadius {
    ghost use Rattle.std.specs.Prelude.{ℤ};
    ghost use Rattle.sql_bound.specs.Radii.{IsSquaredRadius};

    ghost Value = { ℤ };

    ghost view = { λ n. n.value };

    ghost invariant = { λ n. IsSquaredRadius n.value };

    ghost inverse = { λ z. record { value = z } };
}

/// The largest squared radius.
const MOST: i64 = CHORD_SQUARED_MOST as i64;

impl SquaredRadius {
    /// The squared radius of this value, or `None` if it is below 0 or above 2^62. Does not allocate.
    pub fn new(n: i64) -> Option<SquaredRadius>
        ensures made { IfSome result (λ radius. radius ≡ n) }
        ensures none { IfNone result (IsSquaredRadius n → ⊥) }
    {
        if 0 <= n && n <= MOST {
            Some(SquaredRadius { value: n })
        } else {
            None
        }
    }

    /// The value. Does not allocate.
    pub fn get(&self) -> u64
        ensures value { pos result ≡ self.now }
        ensures most { result ≤ CHORD_SQUARED_MOST }
    {
        self.value as u64
    }
}
