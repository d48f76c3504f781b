//! Search for an expression of a query that passes a test.
ghost use Rattle.std.specs.Prelude.{◌≡◌, Bool};
ghost use Rattle.std.specs.List.{flat_map, list_any};
ghost use Rattle.sql_tree.specs.declared.expr.Expr.{Expr};
ghost use Rattle.bind_rules.specs.Mentions.{items_of};
ghost use Rattle.bind_rules.specs.Widths.{all_exprs};
ghost use Rattle.query_walks.specs.Parts.{exprs_of_item};

use crate::cond_search::is_in_where;
use crate::item_exprs::expr_of;
use sql_tree::{Expr, Item, Query, Selection};

/// A test of expressions.
pub trait ExprTest {
    /// The expressions that pass.
    ghost passes: { Self → Expr → Bool };

    /// Returns whether the expression passes.
    fn passes(&self, e: &Expr) -> bool
        ensures { result ≡ passes self.now e.now };
}

// Returns whether the expression of the item passes.
fn is_in_item<T: ExprTest>(test: &T, item: &Item) -> bool
    ensures { result ≡ list_any (T.passes test.now) (exprs_of_item item.now) }
{
    match expr_of(&item.what) {
        Some(e) => test.passes(e),
        None => false,
    }
}

// Returns whether the expression of one of these items passes.
fn is_in_items<T: ExprTest>(test: &T, items: &[Item]) -> bool
    ensures { result ≡ list_any (T.passes test.now) (flat_map exprs_of_item items.now) }
{
    for item in items {
        if is_in_item(test, item) {
            return true;
        }
    }
    false
}

// Returns whether the expression of one of a query's items passes.
fn is_in_selection<T: ExprTest>(test: &T, items: &Selection) -> bool
    ensures { result ≡
        list_any (T.passes test.now) (flat_map exprs_of_item (items_of items.now)) }
{
    match items {
        Selection::Star { .. } => false,
        Selection::List(list) => {
            is_in_item(test, &list.first) || is_in_items(test, list.rest.as_slice())
        }
    }
}

/// Returns whether an expression of the query, in an item or in WHERE, passes the test.
#[tactic(auto, using(crate::proofs::Anys::any_append))]
pub fn is_in_query<T: ExprTest>(test: &T, query: &Query) -> bool
    ensures { result ≡ list_any (T.passes test.now) (all_exprs query.now) }
{
    is_in_selection(test, &query.items) || is_in_where(test, &query.cond)
}
