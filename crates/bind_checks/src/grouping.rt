//! The first place of a grouped query that has no single value for a group.
ghost use Rattle.std.specs.Prelude.{◌≡◌, not};
ghost use Rattle.std.specs.List.{flat_map, list_any};
ghost use Rattle.std.specs.Option.{option_map};
ghost use Rattle.bind_rules.specs.declared.fault.BindFault.TheVariants.{NotGrouped};
ghost use Rattle.sql_tree.specs.Spans.{col_span};
ghost use Rattle.bind_rules.specs.Columns.{is_same_column};
ghost use Rattle.bind_rules.specs.Mentions.{items_of};
ghost use Rattle.bind_rules.specs.Names.{has_keys, is_aggregate, is_grouped, is_key, not_grouped};
ghost use Rattle.bind_rules.specs.Names.{plain_columns, ungrouped};
ghost use Rattle.query_walks.specs.Firsts.{first_place};
ghost use Rattle.bind_checks.specs.Parts.{plain_columns_of};

use crate::columns::{is_join, is_same_column};
use query_walks::ColumnTest;
use query_walks::column_search::first_column;
use sql_token::Span;
use sql_tree::{Col, Item, ItemKind, Query, Selection};

// Returns whether the item is an aggregate.
fn is_aggregate(what: &ItemKind) -> bool
    ensures { result ≡ is_aggregate what.now }
{
    match what {
        ItemKind::Plain(_) => false,
        ItemKind::Count
        | ItemKind::CountOf(_)
        | ItemKind::Sum(_)
        | ItemKind::Min(_)
        | ItemKind::Max(_)
        | ItemKind::Avg(_) => true,
    }
}

// Returns whether one of these items is an aggregate.
fn is_some_aggregate(items: &[Item]) -> bool
    ensures { result ≡ list_any (λ i. is_aggregate i.what) items.now }
{
    items.iter().any(|item| is_aggregate(&item.what))
}

// Returns whether one of a query's items is an aggregate.
fn has_aggregate(items: &Selection) -> bool
    ensures { result ≡ list_any (λ i. is_aggregate i.what) (items_of items.now) }
{
    match items {
        Selection::Star { .. } => false,
        Selection::List(list) => {
            is_aggregate(&list.first.what) || is_some_aggregate(list.rest.as_slice())
        }
    }
}

// Returns whether there is a GROUP BY.
fn has_keys(query: &Query) -> bool
    ensures { result ≡ has_keys query.now.group }
{
    match query.group.as_slice() {
        [] => false,
        [_, ..] => true,
    }
}

/// Returns whether the query has an aggregate or a GROUP BY.
pub fn is_grouped(query: &Query) -> bool
    ensures { result ≡ is_grouped query.now }
{
    has_aggregate(&query.items) || has_keys(query)
}

/// Returns whether the column is among the GROUP BY columns.
pub(crate) fn is_key(query: &Query, col: &Col) -> bool
    ensures { result ≡ is_key query.now col.now }
{
    query
        .group
        .as_slice()
        .iter()
        .any(|key| is_same_column(col, key))
}

// The test of a column that it is not among the GROUP BY columns.
#[derive(Drop)]
struct NoKey<'a> {
    query: &'a Query,
}

impl ColumnTest for NoKey<'_> {
    ghost passes = { λ test col. not (is_key test.query.now col) };

    fn passes(&self, col: &Col) -> bool {
        !is_key(self.query, col)
    }
}

// Searches an item, outside of an aggregate.
#[tactic(auto, unfolding(query_walks::specs::Firsts::first_place))]
fn ungrouped_in_item(query: &Query, item: &Item) -> Option<Span>
    ensures { result ≡
        first_place col_span (λ c. not (is_key query.now c)) (plain_columns_of item.now) }
{
    match &item.what {
        ItemKind::Plain(e) => first_column(&NoKey { query }, e),
        ItemKind::Count
        | ItemKind::CountOf(_)
        | ItemKind::Sum(_)
        | ItemKind::Min(_)
        | ItemKind::Max(_)
        | ItemKind::Avg(_) => None,
    }
}

// Searches the items after the first.
fn ungrouped_in_items(query: &Query, items: &[Item]) -> Option<Span>
    ensures { result ≡
        first_place col_span (λ c. not (is_key query.now c)) (flat_map plain_columns_of items.now) }
{
    for item in items {
        match ungrouped_in_item(query, item) {
            Some(span) => return Some(span),
            None => {}
        }
    }
    None
}

// Searches the items between SELECT and FROM.
fn ungrouped_in_selection(query: &Query, items: &Selection) -> Option<Span>
    ensures { result ≡ ungrouped query.now items.now }
{
    match items {
        Selection::Star { span } => Some(*span),
        Selection::List(list) => match ungrouped_in_item(query, &list.first) {
            Some(span) => Some(span),
            None => ungrouped_in_items(query, list.rest.as_slice()),
        },
    }
}

/// Returns the span of the star, or of the first column, of a grouped query that has no single value for a group. Does
/// not allocate.
#[tactic(auto, unfolding(bind_rules::specs::Names::not_grouped))]
pub(crate) fn first_ungrouped(query: &Query) -> Option<Span>
    ensures { option_map NotGrouped result ≡ not_grouped query.now }
{
    if !is_join(query) && is_grouped(query) {
        ungrouped_in_selection(query, &query.items)
    } else {
        None
    }
}
