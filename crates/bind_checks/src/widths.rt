//! Whether an expression of a query is too wide.
ghost use Rattle.std.specs.Prelude.{◌≡◌, None, Some, if◌then◌else◌};
ghost use Rattle.bind_rules.specs.declared.fault.BindFault.TheVariants.{TooWide};
ghost use Rattle.bind_rules.specs.Checks.{too_wide_by};
ghost use Rattle.bind_rules.specs.Widths.{is_too_wide};

use crate::columns::Columns;
use crate::expr_widths::is_too_wide;
use query_walks::expr_search::{ExprTest, is_in_query};
use sql_tree::{Expr, Query};

// The test of an expression that it may have a number above 2^100.
#[derive(Drop)]
struct Wide<'a, C> {
    columns: &'a C,
}

impl<'a, C: Columns> ExprTest for Wide<'a, C> {
    ghost passes = { λ test e. is_too_wide (C.size test.columns.now) e };

    fn passes(&self, e: &Expr) -> bool {
        is_too_wide(self.columns, e)
    }
}

/// Returns whether some number that the query computes may be above 2^100 in size. Does not allocate.
#[tactic(auto, unfolding(bind_rules::specs::Checks::too_wide_by))]
pub(crate) fn is_some_too_wide<C: Columns>(query: &Query, columns: &C) -> bool
    ensures { (if result then Some TooWide else None) ≡ too_wide_by (C.size columns.now) query.now }
{
    is_in_query(&Wide { columns }, query)
}
