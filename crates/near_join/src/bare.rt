//! Bare queries: they select the two ids of a pair and have no order. Their only condition, if they have one, is that
//! the first id is the lower one. Such a pair is computed from its ids alone, and no row is read for it.

ghost use Rattle.std.specs.Prelude.{◌≡◌, ◌∷◌, [], IsTrue, None, Some, map};
ghost use Rattle.table_rules.specs.Objects.{Obj};
ghost use Rattle.value_rules.specs.Truth.{meets};
ghost use Rattle.value_rules.specs.Values.{cell_of, pair};
ghost use Rattle.answer_rules.specs.Pieces.{chunk_value};
ghost use Rattle.near_join.specs.Bare.{IsBare};
ghost use Rattle.near_join.specs.Rising.{id_of, is_upward};

use crate::rising::{is_id, is_rising};
use answer_rules::{ChunkItem, ChunkOrder, ChunkQuery};
use sql_bound::BoundCond;

/// Returns true only if the query is bare. `rises` is whether the lower id has to come first.
pub(crate) fn is_bare(query: &ChunkQuery, rises: bool) -> bool
    ensures { IsTrue result → IsBare rises query.now }
{
    are_ids(query.items.as_slice()) && asks_no_more(query, rises)
}

/// Returns true only if there is no order, and no condition but that on the ids.
fn asks_no_more(query: &ChunkQuery, rises: bool) -> bool
    ensures { IsTrue result → (query.now.order ≡ None) × ((u v : Obj) →
        meets query.now.conds (pair u v) ≡ is_upward rises u v) }
{
    is_in_no_order(&query.order) && are_order_of_ids(query.conds.as_slice(), rises)
}

/// Returns true only if the items are the id of the first row and that of the second.
fn are_ids(items: &[ChunkItem]) -> bool
    ensures { IsTrue result → (u v : Obj) → map (chunk_value (pair u v)) items.now
        ≡ Some u.id ∷ Some v.id ∷ [] }
{
    match items {
        [first, second] => is_id_item(first, false) && is_id_item(second, true),
        _ => false,
    }
}

/// Returns true only if the item is the id of the second row of a pair, or without `second` that of the first.
fn is_id_item(item: &ChunkItem, second: bool) -> bool
    ensures { IsTrue result → (u v : Obj) → chunk_value (pair u v) item.now
        ≡ cell_of (pair u v) (id_of second) }
{
    match item {
        ChunkItem::Plain(e) => is_id(e, second),
        _ => false,
    }
}

/// Returns whether there is no order.
fn is_in_no_order(order: &Option<ChunkOrder>) -> bool
    ensures { IsTrue result → order.now ≡ None }
{
    match order {
        None => true,
        Some(_) => false,
    }
}

/// Returns true only if there is no condition, or if the lower id has to come first and the only condition says so.
fn are_order_of_ids(conds: &[BoundCond], rises: bool) -> bool
    ensures { IsTrue result → (u v : Obj) → meets conds.now (pair u v) ≡ is_upward rises u v }
{
    match conds {
        [] => !rises,
        [one] => rises && is_rising(one),
        _ => false,
    }
}
