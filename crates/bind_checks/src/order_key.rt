//! The meaning of the order key of a query.
ghost use Rattle.std.specs.Prelude.{◌≡◌, ◌∷◌, None, Some, ◌||◌, not};
ghost use Rattle.std.specs.List.{position};
ghost use Rattle.std.specs.Option.{is_some, option_map};
ghost use Rattle.bind_rules.specs.declared.fault.BindFault.TheVariants.{OrderName};
ghost use Rattle.sql_tree.specs.Spans.{col_span};
ghost use Rattle.bind_rules.specs.Checks.{alias_place, is_named, is_sortable, order_by, order_fault};
ghost use Rattle.bind_rules.specs.Columns.{is_join};
ghost use Rattle.bind_rules.specs.Mentions.{items_of};
ghost use Rattle.bind_rules.specs.Names.{is_grouped, is_key};

use crate::columns::{Columns, is_join};
use crate::grouping::{is_grouped, is_key};
use sql_token::Span;
use sql_tree::{Col, Item, ItemList, Name, OrderBy, Query, Selection};

// Returns whether the alias is this name.
fn is_named(name: &Name, alias: &Option<Name>) -> bool
    ensures { result ≡ is_named name.now alias.now }
{
    match alias {
        Some(alias) => alias.text.as_slice() == name.text.as_slice(),
        None => false,
    }
}

// Returns the index of the first of these items whose alias is the name, from 0.
fn place_among(name: &Name, items: &[Item]) -> Option<usize>
    ensures { result ≡ position (λ i. is_named name.now i.alias) items.now }
{
    items.iter().position(|item| is_named(name, &item.alias))
}

// Returns it for a list of one item or more.
fn place_in_list(name: &Name, list: &ItemList) -> Option<usize>
    ensures { result ≡ position (λ i. is_named name.now i.alias) (list.now.first ∷ list.now.rest) }
{
    if is_named(name, &list.first.alias) {
        return Some(0);
    }
    match place_among(name, list.rest.as_slice()) {
        Some(place) => Some(place + 1),
        None => None,
    }
}

// Returns the index of the first of a query's items whose alias is the name, from 0.
fn place_in(name: &Name, items: &Selection) -> Option<usize>
    ensures { result ≡ position (λ i. is_named name.now i.alias) (items_of items.now) }
{
    match items {
        Selection::Star { .. } => None,
        Selection::List(list) => place_in_list(name, list),
    }
}

/// Returns the index, from 0, of the first item whose alias is the key. Does not allocate.
pub fn alias_place(query: &Query, col: &Col) -> Option<usize>
    ensures { result ≡ alias_place query.now col.now }
{
    match &col.table {
        Some(_) => None,
        None => place_in(&col.name, &query.items),
    }
}

// Returns whether the key has a qualifier, if the query is a join.
fn is_told(query: &Query, col: &Col) -> bool
    ensures { result ≡ (not (is_join query.now) || is_some col.now.table) }
{
    !is_join(query) || col.table.is_some()
}

// Returns whether the column is a GROUP BY column, if the query is grouped.
fn is_settled(query: &Query, col: &Col) -> bool
    ensures { result ≡ (not (is_grouped query.now) || is_key query.now col.now) }
{
    !is_grouped(query) || is_key(query, col)
}

// Returns whether the key is a column to order by.
fn is_sortable<C: Columns>(query: &Query, columns: &C, col: &Col) -> bool
    ensures { result ≡ is_sortable (C.known columns.now).column query.now col.now }
{
    columns.is_known(col) && is_told(query, col) && is_settled(query, col)
}

// Returns the span of the key, if it is neither an alias nor a column to order by.
fn bad_key<C: Columns>(query: &Query, columns: &C, order: &OrderBy) -> Option<Span>
    ensures { option_map OrderName result
        ≡ order_fault (C.known columns.now).column query.now (Some order.now) }
{
    if alias_place(query, &order.key).is_some() || is_sortable(query, columns, &order.key) {
        None
    } else {
        Some(order.key.span())
    }
}

/// Returns the span of the order key, if it is neither an alias nor a column to order by. Does not allocate.
#[tactic(auto, unfolding(bind_rules::specs::Checks::order_by))]
pub(crate) fn bad_order_key<C: Columns>(query: &Query, columns: &C) -> Option<Span>
    ensures { option_map OrderName result ≡ order_by (C.known columns.now) query.now }
{
    match &query.order {
        Some(order) => bad_key(query, columns, order),
        None => None,
    }
}
