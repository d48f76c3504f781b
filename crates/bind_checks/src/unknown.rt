//! The unknown columns of an expression.
ghost use Rattle.std.specs.Prelude.{◌≡◌, map, not};
ghost use Rattle.bind_rules.specs.Mentions.{Column, mentioned};
ghost use Rattle.bind_checks.specs.Unknowns.{unknown_at};

use crate::columns::Columns;
use query_walks::ColumnTest;
use query_walks::column_search::{first_column, first_of_columns};
use sql_token::Span;
use sql_tree::{Col, Expr};

// The test of a column that it is unknown.
#[derive(Drop)]
struct Unknown<'a, C> {
    columns: &'a C,
}

impl<'a, C: Columns> ColumnTest for Unknown<'a, C> {
    ghost passes = { λ test col. not ((C.known test.columns.now).column col) };

    fn passes(&self, col: &Col) -> bool {
        !self.columns.is_known(col)
    }
}

/// Returns the span of the first unknown column of an expression.
pub(crate) fn unknown_in_expr<C: Columns>(columns: &C, e: &Expr) -> Option<Span>
    ensures { result ≡ unknown_at (C.known columns.now) (mentioned e.now) }
{
    first_column(&Unknown { columns }, e)
}

/// Returns the span of the first unknown one of these columns.
pub(crate) fn unknown_in_columns<C: Columns>(columns: &C, cols: &[Col]) -> Option<Span>
    ensures { result ≡ unknown_at (C.known columns.now) (map Column cols.now) }
{
    first_of_columns(&Unknown { columns }, cols)
}
