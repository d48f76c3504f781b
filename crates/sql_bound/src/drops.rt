//! Drops of expressions and conditions, which contain others of their own type. A crate that drops them by these calls
//! proves a call, and not the drop of each type below.

use crate::cond::BoundConds;
use crate::expr::BoundExpr;

/// Drops an expression.
pub fn drop_expr(expr: BoundExpr) {}

/// Drops conditions.
pub fn drop_conds(conds: BoundConds) {}
