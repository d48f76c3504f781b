//! Numbers and NULL: an operation on NULL gives NULL.

ghost use Rattle.std.specs.Prelude.{◌≡◌, ◌*ℤ◌, ◌+ℤ◌, ◌-ℤ◌, if◌then◌else◌, neg_ℤ, option_map};
ghost use Rattle.value_rules.specs.Values.{of_both};
ghost use Rattle.value_rules.specs.Widths.{IsOfSize, most};

use sky_vector::Num;

/// Returns the number, or with `minus` its negation.
pub(crate) fn signed(minus: bool, a: Option<i128>) -> Option<i128>
    requires { IsOfSize most a }
    ensures { result ≡ (if minus then option_map neg_ℤ a else a) }
{
    if minus { Some(-a?) } else { a }
}

/// Returns the sum of the two, or with `minus` their difference.
pub(crate) fn added(a: Option<i128>, minus: bool, b: Option<i128>) -> Option<i128>
    requires a_size { IsOfSize most a }
    requires b_size { IsOfSize most b }
    ensures { result ≡ (if minus then of_both (λ x y. x -ℤ y) a b
        else of_both (λ x y. x +ℤ y) a b) }
{
    let a = a?;
    let b = b?;
    Some(if minus { a - b } else { a + b })
}

/// Returns the product of the two.
pub(crate) fn multiplied(a: Option<i128>, b: Option<i128>) -> Option<i128>
    requires { IsOfSize most (of_both (λ x y. x *ℤ y) a b) }
    ensures { result ≡ of_both (λ x y. x *ℤ y) a b }
{
    Some(a? * b?)
}

/// Returns the value of a column as a value to compute with.
pub(crate) fn wide(a: Option<i64>) -> Option<i128>
    ensures { result ≡ a }
{
    Some(i128::from(a?))
}

/// Returns the number of a query.
pub(crate) fn number(a: Option<i128>) -> Option<Num>
    requires { IsOfSize most a }
    ensures { result ≡ a }
{
    Num::new(a?)
}
