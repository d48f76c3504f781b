//! The vectorizable predicates: a column compared with a number, on either side; a column BETWEEN two numbers; IS NULL
//! and IS NOT NULL of a column; and areas.
//!
//! A number is an integer, or an integer after a minus. A condition in brackets, after NOT or in OR is left to the
//! evaluator.
ghost use Rattle.std.specs.Prelude.{◌≡◌, IfSome, Some, false, true};
ghost use Rattle.sql_tree.specs.declared.cond.Cmp.TheVariants.{AtMost};
ghost use Rattle.value_rules.specs.Formulas.{And, Compares, IsNull, formula_of, formula_of_pred, negated_if};
ghost use Rattle.value_rules.specs.Terms.{term_of};
ghost use Rattle.chunk_filter.specs.Asking.{IsVectorized};

use crate::predicate::{Predicate, Vectorized};
use crate::vectorized_area::of_area;
use column_eval::column_of;
use expr_eval::{mirrored, number_of};
use sql_bound::{BoundCond, BoundExpr, BoundPred};
use sql_tree::Cmp;

/// Returns what a kernel can do for the condition, if there is one for it.
#[tactic(auto, using(crate::proofs::Vectorizing::plain_cond))]
pub(crate) fn vectorized(c: &BoundCond) -> Option<Vectorized>
    ensures { IfSome result (IsVectorized (formula_of c.now)) }
{
    if c.not {
        return None;
    }
    of_pred(&c.pred)
}

/// Returns the predicate of a condition without NOT, if a kernel has one.
fn of_pred(pred: &BoundPred) -> Option<Vectorized>
    ensures { IfSome result (IsVectorized (formula_of_pred pred.now)) }
{
    match pred {
        BoundPred::Compare { left, op, right } => compared(left, *op, right),
        BoundPred::Between {
            not,
            value,
            low,
            high,
        } => between(*not, value, low, high),
        BoundPred::IsNull { not, value } => presence(*not, value),
        BoundPred::Area(test) => Some(of_area(test)),
        _ => None,
    }
}

/// Returns the predicate as one that is the whole condition.
fn whole(test: Predicate) -> Option<Vectorized>
    ensures { result ≡ Some (record { test = test; whole = true }) }
{
    Some(Vectorized { test, whole: true })
}

/// Returns a column compared with a number, or the mirrored comparison if the number comes first.
#[tactic(auto, using(crate::proofs::Vectorizing::compare_vectorized))]
fn compared(left: &BoundExpr, op: Cmp, right: &BoundExpr) -> Option<Vectorized>
    ensures { IfSome result (IsVectorized (Compares op (term_of left.now) (term_of right.now))) }
{
    match (column_of(left), number_of(right)) {
        (Some(col), Some(n)) => whole(Predicate::Compare { col, op, n }),
        _ => number_first(left, op, right),
    }
}

/// Returns a number compared with a column.
#[tactic(auto, using(crate::proofs::Vectorizing::mirrored_vectorized))]
fn number_first(left: &BoundExpr, op: Cmp, right: &BoundExpr) -> Option<Vectorized>
    ensures { IfSome result (IsVectorized (Compares op (term_of left.now) (term_of right.now))) }
{
    let n = number_of(left)?;
    let col = column_of(right)?;
    whole(Predicate::Compare {
        col,
        op: mirrored(op),
        n,
    })
}

/// Returns a column BETWEEN two numbers.
#[tactic(auto, using(crate::proofs::Vectorizing::between_vectorized))]
fn between(not: bool, value: &BoundExpr, low: &BoundExpr, high: &BoundExpr) -> Option<Vectorized>
    ensures { IfSome result (IsVectorized (negated_if not
        (And (Compares AtMost (term_of low.now) (term_of value.now))
        (Compares AtMost (term_of value.now) (term_of high.now))))) }
{
    if not {
        return None;
    }
    let col = column_of(value)?;
    let low = number_of(low)?;
    let high = number_of(high)?;
    whole(Predicate::Range { col, low, high })
}

/// Returns IS NULL of a column, or with `not` IS NOT NULL.
#[tactic(auto, using(crate::proofs::Vectorizing::present_vectorized, crate::proofs::Vectorizing::absent_vectorized))]
fn presence(not: bool, value: &BoundExpr) -> Option<Vectorized>
    ensures { IfSome result (IsVectorized (negated_if not (IsNull (term_of value.now)))) }
{
    let col = column_of(value)?;
    if not {
        whole(Predicate::Present { col })
    } else {
        whole(Predicate::Absent { col })
    }
}
