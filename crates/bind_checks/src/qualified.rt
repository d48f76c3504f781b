//! Whether each column of a query, except the order key, has a qualifier.
ghost use Rattle.std.specs.Prelude.{◌≡◌, is_some, not};
ghost use Rattle.std.specs.List.{list_all};
ghost use Rattle.bind_rules.specs.Mentions.{columns_in, columns_of};
ghost use Rattle.bind_checks.specs.Qualified.{are_qualified, is_bare};

use query_walks::ColumnTest;
use query_walks::column_search::{first_column, first_of_columns};
use query_walks::expr_search::{ExprTest, is_in_query};
use sql_tree::{Col, Expr, Query};

// The test of a column that it has no qualifier.
#[derive(Drop)]
struct Bare;

impl ColumnTest for Bare {
    ghost passes = { λ test col. not (is_some col.table) };

    fn passes(&self, col: &Col) -> bool {
        col.table.is_none()
    }
}

impl ExprTest for Bare {
    ghost passes = { λ test e. is_bare e };

    fn passes(&self, e: &Expr) -> bool {
        has_bare(e)
    }
}

// Returns whether a column of an expression has no qualifier.
fn has_bare(e: &Expr) -> bool
    ensures { result ≡ is_bare e.now }
{
    first_column(&Bare, e).is_some()
}

// Returns whether each column of a list has a qualifier.
fn are_cols_qualified(cols: &[Col]) -> bool
    ensures { result ≡ are_qualified cols.now }
{
    first_of_columns(&Bare, cols).is_none()
}

/// Returns whether each column of a query, except the order key, has a qualifier. Does not allocate.
#[tactic(auto, using(crate::proofs::QualifiedLaws::query_qualified))]
pub fn is_query_qualified(query: &Query) -> bool
    ensures { result ≡ list_all (λ c. is_some c.table) (columns_in query.now) }
{
    !is_in_query(&Bare, query) && are_cols_qualified(query.group.as_slice())
}
