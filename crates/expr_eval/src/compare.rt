//! Comparisons of numbers, and lists of numbers, if a side may be NULL.

ghost use Rattle.std.specs.Prelude.{◌≡◌};
ghost use Rattle.value_rules.specs.Truth.{compared, compares, among, is_one_of};

use sql_bound::Cmp;

// Returns whether the comparison is true of the two numbers.
fn compares(op: Cmp, a: i128, b: i128) -> bool
    ensures { result ≡ compares op a b }
{
    match op {
        Cmp::Equal => a == b,
        Cmp::Differs => a != b,
        Cmp::Less => a < b,
        Cmp::AtMost => a <= b,
        Cmp::More => a > b,
        Cmp::AtLeast => a >= b,
    }
}

/// Returns the truth value of a comparison, which is unknown if a side is NULL.
pub(crate) fn compared(op: Cmp, a: Option<i128>, b: Option<i128>) -> Option<bool>
    ensures { result ≡ compared op a b }
{
    Some(compares(op, a?, b?))
}

// Returns whether the number is in the list.
fn is_one_of(list: &[i64], a: i128) -> bool
    ensures { result ≡ is_one_of list.now a }
{
    list.iter().any(|n| i128::from(*n) == a)
}

/// Returns the truth value of IN, which is unknown if the value is NULL.
pub(crate) fn among(value: Option<i128>, list: &[i64]) -> Option<bool>
    ensures { result ≡ among value list.now }
{
    Some(is_one_of(list, value?))
}
