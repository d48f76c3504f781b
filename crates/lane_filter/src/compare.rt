//! Comparisons of a column with a number.
ghost use Rattle.std.specs.Prelude.{◌≡◌, length, get_or, pos};
ghost use Rattle.value_rules.specs.Truth.{compares};
ghost use Rattle.lane_filter.specs.Tests.{IsKeptBy};

use crate::narrow::keep_by_narrow;
use crate::wide::{Above, AtLeast, AtMost, Below, Differs, Equals, keep_by};
use sql_tree::Cmp;

/// Clears the mask at each row whose comparison of the value with the number is false. Does not allocate.
pub fn keep(values: &[i64], op: Cmp, n: i64, mask: &mut [bool])
    requires { length values.now ≡ length mask.old }
    ensures len { length mask.new ≡ length mask.old }
    ensures each { IsKeptBy (λ k. compares op (get_or values.now k (pos 0)) n) mask.old mask.new }
{
    match op {
        Cmp::Equal => keep_by(&Equals { n }, values, mask),
        Cmp::Differs => keep_by(&Differs { n }, values, mask),
        Cmp::Less => keep_by(&Below { n }, values, mask),
        Cmp::AtMost => keep_by(&AtMost { n }, values, mask),
        Cmp::More => keep_by(&Above { n }, values, mask),
        Cmp::AtLeast => keep_by(&AtLeast { n }, values, mask),
    }
}

/// Clears the mask at each row whose comparison of the value with the number is false. The values have 32 bits. Does
/// not allocate.
pub fn keep_narrow(values: &[i32], op: Cmp, n: i32, mask: &mut [bool])
    requires { length values.now ≡ length mask.old }
    ensures len { length mask.new ≡ length mask.old }
    ensures each { IsKeptBy (λ k. compares op (get_or values.now k (pos 0)) n) mask.old mask.new }
{
    let n = i64::from(n);
    match op {
        Cmp::Equal => keep_by_narrow(&Equals { n }, values, mask),
        Cmp::Differs => keep_by_narrow(&Differs { n }, values, mask),
        Cmp::Less => keep_by_narrow(&Below { n }, values, mask),
        Cmp::AtMost => keep_by_narrow(&AtMost { n }, values, mask),
        Cmp::More => keep_by_narrow(&Above { n }, values, mask),
        Cmp::AtLeast => keep_by_narrow(&AtLeast { n }, values, mask),
    }
}
