//! The conditions that compare one column with numbers: a comparison with a number on either side, and a BETWEEN of two
//! numbers. A number is an integer, or an integer after a minus.
ghost use Rattle.std.specs.Prelude.{◌≡◌, IfSome, false, true};
ghost use Rattle.sql_tree.specs.declared.cond.Cmp.TheVariants.{AtMost};
ghost use Rattle.value_rules.specs.Formulas.{And, Compares, formula_of, formula_of_pred, negated_if};
ghost use Rattle.value_rules.specs.Terms.{Column, term_of};
ghost use Rattle.source_filter.specs.Tests.{IsColumnTest};

use crate::test::{ColumnTest, Test};
use expr_eval::{factor_of, mirrored, number_of};
use sql_bound::{BoundAtom, BoundCol, BoundCond, BoundExpr, BoundPred};
use sql_tree::Cmp;

/// Returns the test of a column that the condition is, if it is one.
#[tactic(auto, using(crate::proofs::Testing::plain_cond))]
pub(crate) fn column_test(c: &BoundCond) -> Option<ColumnTest>
    ensures { IfSome result (IsColumnTest (formula_of c.now)) }
{
    if c.not {
        return None;
    }
    of_pred(&c.pred)
}

/// Returns the test of a column that the predicate is.
fn of_pred(pred: &BoundPred) -> Option<ColumnTest>
    ensures { IfSome result (IsColumnTest (formula_of_pred pred.now)) }
{
    match pred {
        BoundPred::Compare { left, op, right } => compared(left, *op, right),
        BoundPred::Between {
            not,
            value,
            low,
            high,
        } => between(*not, value, low, high),
        _ => None,
    }
}

/// Returns a column compared with a number, or the mirrored comparison if the number comes first.
#[tactic(auto, using(crate::proofs::Testing::compare_is_a_test))]
fn compared(left: &BoundExpr, op: Cmp, right: &BoundExpr) -> Option<ColumnTest>
    ensures { IfSome result (IsColumnTest (Compares op (term_of left.now) (term_of right.now))) }
{
    match (column_of(left), number_of(right)) {
        (Some(col), Some(n)) => Some(ColumnTest {
            col,
            test: Test::Compare { op, n },
        }),
        _ => number_first(left, op, right),
    }
}

/// Returns a number compared with a column.
#[tactic(auto, using(crate::proofs::Testing::mirrored_is_a_test))]
fn number_first(left: &BoundExpr, op: Cmp, right: &BoundExpr) -> Option<ColumnTest>
    ensures { IfSome result (IsColumnTest (Compares op (term_of left.now) (term_of right.now))) }
{
    let n = number_of(left)?;
    let col = column_of(right)?;
    Some(ColumnTest {
        col,
        test: Test::Compare {
            op: mirrored(op),
            n,
        },
    })
}

/// Returns a column BETWEEN two numbers.
#[tactic(auto, using(crate::proofs::Testing::between_is_a_test))]
fn between(not: bool, value: &BoundExpr, low: &BoundExpr, high: &BoundExpr) -> Option<ColumnTest>
    ensures { IfSome result (IsColumnTest (negated_if not
        (And (Compares AtMost (term_of low.now) (term_of value.now))
        (Compares AtMost (term_of value.now) (term_of high.now))))) }
{
    if not {
        return None;
    }
    let col = column_of(value)?;
    let low = number_of(low)?;
    let high = number_of(high)?;
    Some(ColumnTest {
        col,
        test: Test::Range { low, high },
    })
}

/// Returns the column that the expression is written as, if it is one.
pub(crate) fn column_of(e: &BoundExpr) -> Option<BoundCol>
    ensures { IfSome result (λ col. term_of e.now ≡ Column col) }
{
    let factor = factor_of(e)?;
    if factor.minus {
        return None;
    }
    match &factor.atom {
        BoundAtom::Col(col) => Some(*col),
        _ => None,
    }
}
