//! The integers of a text.

ghost use Rattle.std.specs.Prelude.{◌≡◌, ◌<◌, IfNone, IfSome, pos};
ghost use Rattle.sql_token.specs.Ints.{IsInt};
ghost use Rattle.sql_token.specs.declared.limits.TheConstants.{INT_MOST};

use std::marker::Model;

/// An integer literal without sign, from 0 to 2^63 - 1.
#[derive(Clone, Copy, Debug, PartialEq, Eq)]
pub struct Int {
    value: i64,
}

impl Model for Int {
    ghost use Rattle.std.specs.Prelude.{ℤ};
    ghost use Rattle.sql_token.specs.Ints.{IsInt};

    ghost Value = { ℤ };

    ghost view = { λ int. int.value };

    ghost invariant = { λ int. IsInt int.value };

    ghost inverse = { λ z. record { value = z } };
}

impl Int {
    /// The integer of this value, or `None` if it is above 2^63 - 1. Does not allocate.
    pub fn new(n: u64) -> Option<Int>
        ensures made { IfSome result (λ int. int ≡ pos n) }
        ensures none { IfNone result (INT_MOST < n) }
    {
        match i64::try_from(n) {
            Ok(value) => Some(Int { value }),
            Err(_) => None,
        }
    }

    /// The value. Does not allocate.
    pub fn get(&self) -> i64
        ensures value { result ≡ self.now }
        ensures within { IsInt result }
    {
        self.value
    }
}
