//! Tests of a column against a range.
ghost use Rattle.std.specs.Prelude.{◌≡◌, length, get_or, pos};
ghost use Rattle.lane_filter.specs.Tests.{IsKeptBy, is_from_to};

use crate::narrow::keep_by_narrow;
use crate::wide::{Between, keep_by};

/// Clears the mask at each row whose value is not from the first number to the last. Does not allocate.
pub fn keep_between(values: &[i64], first: i64, last: i64, mask: &mut [bool])
    requires { length values.now ≡ length mask.old }
    ensures len { length mask.new ≡ length mask.old }
    ensures each { IsKeptBy (λ k. is_from_to first last (get_or values.now k (pos 0)))
        mask.old mask.new }
{
    keep_by(&Between { first, last }, values, mask);
}

/// Clears the mask at each row whose value is not from the first number to the last. The values have 32 bits. Does not
/// allocate.
pub fn keep_between_narrow(values: &[i32], first: i32, last: i32, mask: &mut [bool])
    requires { length values.now ≡ length mask.old }
    ensures len { length mask.new ≡ length mask.old }
    ensures each { IsKeptBy (λ k. is_from_to first last (get_or values.now k (pos 0)))
        mask.old mask.new }
{
    keep_by_narrow(
        &Between {
            first: i64::from(first),
            last: i64::from(last),
        },
        values,
        mask,
    );
}
