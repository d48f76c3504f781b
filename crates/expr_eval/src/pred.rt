//! The truth values of tests of expressions.

ghost use Rattle.std.specs.Prelude.{◌≡◌};
ghost use Rattle.expr_eval.specs.Picks.{AreRows, IsSoundTerm, pick_of, truth_on};
ghost use Rattle.sql_tree.specs.declared.cond.Cmp.TheVariants.{AtMost};
ghost use Rattle.value_rules.specs.Formulas.{And, Compares, IsNull, Among, negated_if};
ghost use Rattle.value_rules.specs.Terms.{term_of};

use crate::compare::compared;
use crate::expr::sum;
use crate::three::{both, negated_if};
use sky_row::Row;
use sql_bound::{BoundExpr, Cmp};

/// Returns the truth value of a comparison.
pub(crate) fn compare(
    left: &BoundExpr,
    op: Cmp,
    right: &BoundExpr,
    first: &Row,
    second: Option<&Row>,
) -> Option<bool>
    requires rows { AreRows (pick_of first.now second) }
    requires left { IsSoundTerm (pick_of first.now second) (term_of left.now) }
    requires right { IsSoundTerm (pick_of first.now second) (term_of right.now) }
    ensures { result ≡ truth_on (pick_of first.now second.entry)
        (Compares op (term_of left.now) (term_of right.now)) }
{
    let left = sum(left, first, second);
    let right = sum(right, first, second);
    compared(op, left, right)
}

/// Returns the truth value of BETWEEN, or with `negated` of NOT BETWEEN.
pub(crate) fn between(
    negated: bool,
    value: &BoundExpr,
    low: &BoundExpr,
    high: &BoundExpr,
    first: &Row,
    second: Option<&Row>,
) -> Option<bool>
    requires rows { AreRows (pick_of first.now second) }
    requires value { IsSoundTerm (pick_of first.now second) (term_of value.now) }
    requires low { IsSoundTerm (pick_of first.now second) (term_of low.now) }
    requires high { IsSoundTerm (pick_of first.now second) (term_of high.now) }
    ensures { result ≡ truth_on (pick_of first.now second.entry)
        (negated_if negated (And (Compares AtMost (term_of low.now) (term_of value.now))
        (Compares AtMost (term_of value.now) (term_of high.now)))) }
{
    let value = sum(value, first, second);
    let low = sum(low, first, second);
    let high = sum(high, first, second);
    let above = compared(Cmp::AtMost, low, value);
    let below = compared(Cmp::AtMost, value, high);
    negated_if(negated, both(above, below))
}

/// Returns the truth value of IN, or with `negated` of NOT IN.
pub(crate) fn among(
    negated: bool,
    value: &BoundExpr,
    list: &[i64],
    first: &Row,
    second: Option<&Row>,
) -> Option<bool>
    requires rows { AreRows (pick_of first.now second) }
    requires value { IsSoundTerm (pick_of first.now second) (term_of value.now) }
    ensures { result ≡ truth_on (pick_of first.now second.entry)
        (negated_if negated (Among (term_of value.now) list.now)) }
{
    let value = sum(value, first, second);
    negated_if(negated, crate::compare::among(value, list))
}

/// Returns the truth value of IS NULL, or with `negated` of IS NOT NULL.
pub(crate) fn is_null(
    negated: bool,
    value: &BoundExpr,
    first: &Row,
    second: Option<&Row>,
) -> Option<bool>
    requires rows { AreRows (pick_of first.now second) }
    requires value { IsSoundTerm (pick_of first.now second) (term_of value.now) }
    ensures { result ≡ truth_on (pick_of first.now second.entry)
        (negated_if negated (IsNull (term_of value.now))) }
{
    let value = sum(value, first, second);
    negated_if(negated, Some(value.is_none()))
}
