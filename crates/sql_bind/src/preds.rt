//! Predicates that contain no condition, with columns in place of names.
ghost use Rattle.std.specs.Prelude.{◌≡◌, IfOk};
ghost use Rattle.sql_bound.specs.declared.cond.BoundPred.TheVariants as bound;
ghost use Rattle.bind_rules.specs.Areas.{area_test};
ghost use Rattle.bind_rules.specs.Bounds.{expr_by};
ghost use Rattle.bind_rules.specs.Wholes.{area_pred};
ghost use Rattle.bind_rules.specs.Forms.{values_of};

use crate::exprs::bound_expr;
use crate::ints::values_of;
use bind_checks::{Columns, area_test};
use sql_bound::BoundPred;
use sql_tree::{AreaKind, Cmp, Expr, IntList};
use std::alloc::{AllocError, Global};

/// Returns a comparison. Allocates memory for its sides.
pub(crate) fn compare<C: Columns>(
    alloc: Global,
    columns: &C,
    left: &Expr,
    op: Cmp,
    right: &Expr,
) -> Result<BoundPred, AllocError>
    ensures { IfOk result (λ p. p ≡ bound.Compare (expr_by (C.means columns.now) left.now) op
        (expr_by (C.means columns.now) right.now)) }
{
    let left = bound_expr(alloc, columns, left)?;
    let right = bound_expr(alloc, columns, right)?;
    Ok(BoundPred::Compare { left, op, right })
}

/// Returns the test of a value between two bounds. Allocates memory for the three.
pub(crate) fn between<C: Columns>(
    alloc: Global,
    columns: &C,
    not: bool,
    value: &Expr,
    low: &Expr,
    high: &Expr,
) -> Result<BoundPred, AllocError>
    ensures { IfOk result (λ p. p ≡ bound.Between not (expr_by (C.means columns.now) value.now)
        (expr_by (C.means columns.now) low.now) (expr_by (C.means columns.now) high.now)) }
{
    let value = bound_expr(alloc, columns, value)?;
    let low = bound_expr(alloc, columns, low)?;
    let high = bound_expr(alloc, columns, high)?;
    Ok(BoundPred::Between {
        not,
        value,
        low,
        high,
    })
}

/// Returns the test of a value among ints. Allocates memory for the value and the ints.
pub(crate) fn among<C: Columns>(
    alloc: Global,
    columns: &C,
    not: bool,
    value: &Expr,
    list: &IntList,
) -> Result<BoundPred, AllocError>
    ensures { IfOk result (λ p. p ≡ bound.Among not (expr_by (C.means columns.now) value.now)
        (values_of list.now)) }
{
    let value = bound_expr(alloc, columns, value)?;
    let list = values_of(alloc, list)?;
    Ok(BoundPred::Among { not, value, list })
}

/// Returns the test whether a value is NULL. Allocates memory for the value.
pub(crate) fn is_null<C: Columns>(
    alloc: Global,
    columns: &C,
    not: bool,
    value: &Expr,
) -> Result<BoundPred, AllocError>
    ensures { IfOk result (λ p. p ≡ bound.IsNull not (expr_by (C.means columns.now) value.now)) }
{
    let value = bound_expr(alloc, columns, value)?;
    Ok(BoundPred::IsNull { not, value })
}

/// Returns an area test, if its arguments fit its function. Does not allocate.
pub(crate) fn area(kind: AreaKind, args: &IntList) -> Option<BoundPred>
    ensures { result ≡ area_pred (area_test kind (values_of args.now)) }
{
    match area_test(kind, args) {
        Some(test) => Some(BoundPred::Area(test)),
        None => None,
    }
}
