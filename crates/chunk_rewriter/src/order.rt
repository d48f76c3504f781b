//! The orders of a chunk query and of a merge.

ghost use Rattle.std.specs.Prelude.{◌≡◌, IfOk, option_map};
ghost use Rattle.answer_rules.specs.ChunkQueries.{chunk_order_of, key_expr};
ghost use Rattle.answer_rules.specs.Rewriting.{group_key_of, key_place, merge_key_of};
ghost use Rattle.answer_rules.specs.ChunkQueries.{row_order_of};
ghost use Rattle.std.specs.Option.{option_and_then};
ghost use Rattle.value_rules.specs.Sound.{same_col};

use crate::expr::{copied_expr, of_col};
use answer_rules::{ChunkOrder, MergeKey, MergeOrder};
use sql_bound::{BoundCol, BoundExpr, BoundItem, BoundKey, BoundOrder, Shape};
use std::alloc::{AllocError, Global};

/// Returns the order of the chunk query: rows and pairs have that of the query, groups have none.
pub(crate) fn chunk_order(
    alloc: Global,
    shape: &Shape,
    items: &[BoundItem],
    order: Option<BoundOrder>,
) -> Result<Option<ChunkOrder>, AllocError>
    ensures { IfOk result (λ made. made ≡ chunk_order_of shape.now items.now order) }
{
    match shape {
        Shape::Rows => row_order(alloc, items, order),
        Shape::Pairs { .. } => row_order(alloc, items, order),
        Shape::Groups { .. } => Ok(None),
    }
}

/// Returns the order of rows or pairs, if the query has one.
fn row_order(
    alloc: Global,
    items: &[BoundItem],
    order: Option<BoundOrder>,
) -> Result<Option<ChunkOrder>, AllocError>
    ensures { IfOk result (λ made. made ≡ option_and_then (row_order_of items.now) order) }
{
    match order {
        Some(order) => order_by(alloc, items, order),
        None => Ok(None),
    }
}

/// Returns the order of rows or pairs.
fn order_by(
    alloc: Global,
    items: &[BoundItem],
    order: BoundOrder,
) -> Result<Option<ChunkOrder>, AllocError>
    ensures { IfOk result (λ made. made ≡ row_order_of items.now order) }
{
    match key_expr(alloc, items, order.key)? {
        Some(key) => Ok(Some(ChunkOrder {
            key,
            down: order.down,
        })),
        None => Ok(None),
    }
}

/// Returns the expression by which rows or pairs are ordered: a column, or the item with an index if that is a plain
/// one.
fn key_expr(
    alloc: Global,
    items: &[BoundItem],
    key: BoundKey,
) -> Result<Option<BoundExpr>, AllocError>
    ensures { IfOk result (λ made. made ≡ key_expr items.now key) }
{
    match key {
        BoundKey::Item(place) => match items.get(place) {
            Some(BoundItem::Plain(e)) => Ok(Some(copied_expr(alloc, e)?)),
            _ => Ok(None),
        },
        BoundKey::Column(col) => Ok(Some(of_col(alloc, col))),
    }
}

/// Returns the order of the merge, if the query has one.
pub(crate) fn merge_order(shape: &Shape, order: Option<BoundOrder>) -> Option<MergeOrder>
    ensures { result ≡ option_map
        (λ o. record { key = merge_key_of shape.now o.key; down = o.down }) order }
{
    let order = order?;
    Some(MergeOrder {
        key: merge_key(shape, order.key),
        down: order.down,
    })
}

/// Returns the key by which the merge is ordered.
fn merge_key(shape: &Shape, key: BoundKey) -> MergeKey
    ensures { result ≡ merge_key_of shape.now key }
{
    match shape {
        Shape::Rows => MergeKey::ChunkKey,
        Shape::Pairs { .. } => MergeKey::ChunkKey,
        Shape::Groups { keys } => group_key(keys.as_slice(), key),
    }
}

/// Returns the key by which the merge of a grouped query is ordered.
fn group_key(keys: &[BoundCol], key: BoundKey) -> MergeKey
    ensures { result ≡ group_key_of keys.now key }
{
    match key {
        BoundKey::Item(place) => MergeKey::Item(place),
        BoundKey::Column(col) => MergeKey::Key(key_place(keys, &col)),
    }
}

/// Returns the index of the first key that is this column, or the number of keys if none is.
#[tactic(auto, using(crate::proofs::Loops::place_here, crate::proofs::Loops::place_behind, crate::proofs::Loops::place_nowhere))]
fn key_place(keys: &[BoundCol], col: &BoundCol) -> usize
    ensures { result ≡ key_place keys.now col.now }
{
    for place in 0..keys.len() {
        if is_same(&keys[place], col) {
            return place;
        }
    }
    keys.len()
}

/// Returns whether the two are the same column.
fn is_same(a: &BoundCol, b: &BoundCol) -> bool
    ensures { result ≡ same_col a.now b.now }
{
    a.second == b.second && a.col == b.col
}
