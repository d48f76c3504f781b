//! The parts of a condition that compares a column with a number: the number, the only factor of a side, and the comparison
//! with its sides exchanged.
//!
//! A number is an integer, or an integer after a minus.

ghost use Rattle.std.specs.Prelude.{◌≡◌, ◌≤ℤ◌, ℤ, IfSome, Option, Some, neg_ℤ, pos, if◌then◌else◌};
ghost use Rattle.sql_bound.specs.declared.expr.BoundCol.{BoundCol};
ghost use Rattle.value_rules.specs.ColumnTests.{mirrored};
ghost use Rattle.value_rules.specs.Terms.{term_of, term_of_factor};
ghost use Rattle.value_rules.specs.Values.{value_at};

use sql_bound::{BoundAtom, BoundExpr, BoundFactor};
use sql_tree::Cmp;

/// Returns the comparison with its sides exchanged. Does not allocate.
pub fn mirrored(op: Cmp) -> Cmp
    ensures { result ≡ mirrored op }
{
    match op {
        Cmp::Equal => Cmp::Equal,
        Cmp::Differs => Cmp::Differs,
        Cmp::Less => Cmp::More,
        Cmp::AtMost => Cmp::AtLeast,
        Cmp::More => Cmp::Less,
        Cmp::AtLeast => Cmp::AtMost,
    }
}

/// Returns the expression's only factor, if it has only one. `None` promises nothing: the caller evaluates the expression
/// then. Does not allocate.
pub fn factor_of(e: &BoundExpr) -> Option<&BoundFactor>
    ensures { IfSome result (λ factor. term_of e.now ≡ term_of_factor factor.now) }
{
    if e.rest.len() == 0 && e.first.rest.len() == 0 {
        Some(&e.first.first)
    } else {
        None
    }
}

/// Returns the number that the expression is written as, if it is one. `None` promises nothing, as for `factor_of`. Does
/// not allocate.
pub fn number_of(e: &BoundExpr) -> Option<i64>
    ensures { IfSome result (λ n. (cells : BoundCol → Option ℤ)
        → value_at cells (term_of e.now) ≡ Some n) }
{
    let factor = factor_of(e)?;
    match &factor.atom {
        BoundAtom::Int(n) => Some(signed(factor.minus, n.get())),
        _ => None,
    }
}

/// Returns the number, or with `minus` its negation.
fn signed(minus: bool, n: i64) -> i64
    requires { pos 0 ≤ℤ n }
    ensures { result ≡ if minus then neg_ℤ n else n }
{
    if minus { -n } else { n }
}
