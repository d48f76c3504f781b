//! The first unknown name of a query.
ghost use Rattle.std.specs.Prelude.{◌≡◌, [], ◌∷◌, map};
ghost use Rattle.std.specs.List.{flat_map};
ghost use Rattle.std.specs.Option.{option_map};
ghost use Rattle.bind_rules.specs.declared.fault.BindFault.TheVariants.{UnknownName};
ghost use Rattle.bind_rules.specs.Columns.{tables};
ghost use Rattle.bind_rules.specs.Mentions.{Table, items_of, mentions_of};
ghost use Rattle.bind_rules.specs.Names.{unknown_by};
ghost use Rattle.bind_checks.specs.Parts.{item_mentions, mentions_before_group, mentions_before_where};
ghost use Rattle.bind_checks.specs.Unknowns.{unknown_at};

use crate::columns::Columns;
use crate::cond_names::unknown_in_where;
use crate::unknown::{unknown_in_columns, unknown_in_expr};
use query_walks::item_exprs::expr_of;
use sql_token::Span;
use sql_tree::{Item, Query, Selection, TableRef};

// Searches an item.
fn unknown_in_item<C: Columns>(columns: &C, item: &Item) -> Option<Span>
    ensures { result ≡ unknown_at (C.known columns.now) (item_mentions item.now) }
{
    match expr_of(&item.what) {
        Some(e) => unknown_in_expr(columns, e),
        None => None,
    }
}

// Searches the items after the first.
fn unknown_in_items<C: Columns>(columns: &C, items: &[Item]) -> Option<Span>
    ensures { result ≡ unknown_at (C.known columns.now) (flat_map item_mentions items.now) }
{
    for item in items {
        match unknown_in_item(columns, item) {
            Some(span) => return Some(span),
            None => {}
        }
    }
    None
}

// Searches the items between SELECT and FROM.
fn unknown_in_selection<C: Columns>(columns: &C, items: &Selection) -> Option<Span>
    ensures { result ≡ unknown_at (C.known columns.now)
        (flat_map item_mentions (items_of items.now)) }
{
    match items {
        Selection::Star { .. } => None,
        Selection::List(list) => match unknown_in_item(columns, &list.first) {
            Some(span) => Some(span),
            None => unknown_in_items(columns, list.rest.as_slice()),
        },
    }
}

// Checks a table's name.
#[tactic(auto, unfolding(query_walks::specs::Firsts::first_place))]
fn unknown_table<C: Columns>(columns: &C, table: &TableRef) -> Option<Span>
    ensures { result ≡ unknown_at (C.known columns.now) (Table table.now.name ∷ []) }
{
    if columns.is_table(table.name.text.as_slice()) {
        None
    } else {
        Some(table.name.span)
    }
}

// Searches the names of the query's tables.
fn unknown_in_tables<C: Columns>(columns: &C, query: &Query) -> Option<Span>
    ensures { result ≡ unknown_at (C.known columns.now)
        (map (λ t. Table t.name) (tables query.now)) }
{
    match unknown_table(columns, &query.first) {
        Some(span) => Some(span),
        None => match &query.second {
            Some(second) => unknown_table(columns, second),
            None => None,
        },
    }
}

// Searches the items and the tables.
fn unknown_before_where<C: Columns>(columns: &C, query: &Query) -> Option<Span>
    ensures { result ≡ unknown_at (C.known columns.now) (mentions_before_where query.now) }
{
    match unknown_in_selection(columns, &query.items) {
        Some(span) => Some(span),
        None => unknown_in_tables(columns, query),
    }
}

// Searches the items, the tables and WHERE.
fn unknown_before_group<C: Columns>(columns: &C, query: &Query) -> Option<Span>
    ensures { result ≡ unknown_at (C.known columns.now) (mentions_before_group query.now) }
{
    match unknown_before_where(columns, query) {
        Some(span) => Some(span),
        None => unknown_in_where(columns, &query.cond),
    }
}

// Searches every name of the query except the order key.
fn unknown_mention<C: Columns>(columns: &C, query: &Query) -> Option<Span>
    ensures { result ≡ unknown_at (C.known columns.now) (mentions_of query.now) }
{
    match unknown_before_group(columns, query) {
        Some(span) => Some(span),
        None => unknown_in_columns(columns, query.group.as_slice()),
    }
}

/// Returns the span of the first unknown name of a query; the order key is not inspected. Does not allocate.
pub fn first_unknown<C: Columns>(query: &Query, columns: &C) -> Option<Span>
    ensures { option_map UnknownName result ≡ unknown_by (C.known columns.now) query.now }
{
    unknown_mention(columns, query)
}
