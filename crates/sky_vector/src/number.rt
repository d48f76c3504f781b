//! A number that a query computes.

ghost use Rattle.std.specs.Prelude.{◌≡◌, ℤ, IfNone, IfSome};
ghost use Rattle.sky_vector.specs.Numbers.{IsQueryNumber};

use crate::limits::NUMBER_MOST;
use std::marker::Model;

/// A whole number from -2^100 to 2^100.
#[derive(Clone, Copy, Debug, PartialEq, Eq)]
pub struct Num {
    value: i128,
}

impl Model for Num {
    ghost Value = { ℤ };

    ghost view = { λ n. n.value };

    ghost invariant = { λ n. IsQueryNumber n.value };

    ghost inverse = { λ z. record { value = z } };
}

/// The largest size of a number.
const MOST: i128 = NUMBER_MOST as i128;

impl Num {
    /// The number with this value, or `None` if it is outside ±2^100. Does not allocate.
    pub fn new(n: i128) -> Option<Num>
        ensures made { IfSome result (λ number. number ≡ n) }
        ensures none { IfNone result (IsQueryNumber n → ⊥) }
    {
        if -MOST <= n && n <= MOST {
            Some(Num { value: n })
        } else {
            None
        }
    }

    /// The value. Does not allocate.
    pub fn get(&self) -> i128
        ensures value { result ≡ self.now }
        ensures within { IsQueryNumber result }
    {
        self.value
    }
}
