//! The query of each chunk.

ghost use Rattle.std.specs.Prelude.{◌≡◌, IfOk};
ghost use Rattle.answer_rules.specs.ChunkQueries.{chunk_limit_of};

use crate::cond::copied_conds;
use crate::expr::copied_expr;
use answer_rules::{ChunkItem, ChunkItems, ChunkOrder, ChunkQuery};
use sky_io::Memory;
use sql_bound::{Int, Shape};
use sqlite_items::Items;
use std::alloc::{AllocError, Global};

/// Copies a chunk query; the copy has trees of its own. Allocates memory for them.
pub fn copy_of(alloc: Global, query: &ChunkQuery) -> Result<ChunkQuery, Memory>
    ensures { IfOk result (λ copy. copy ≡ query.now) }
{
    Ok(copied_query(alloc, query)?)
}

/// Copies a chunk query.
fn copied_query(alloc: Global, query: &ChunkQuery) -> Result<ChunkQuery, AllocError>
    ensures { IfOk result (λ copy. copy ≡ query.now) }
{
    let items = copied_items(alloc, query.items.as_slice())?;
    let conds = copied_conds(alloc, query.conds.as_slice())?;
    let shape = copied_shape(alloc, &query.shape)?;
    let order = copied_order(alloc, &query.order)?;
    Ok(ChunkQuery {
        shape,
        items,
        conds,
        order,
        limit: query.limit,
    })
}

/// Copies a shape. Allocates memory for its keys.
pub(crate) fn copied_shape(alloc: Global, shape: &Shape) -> Result<Shape, AllocError>
    ensures { IfOk result (λ copy. copy ≡ shape.now) }
{
    match shape {
        Shape::Rows => Ok(Shape::Rows),
        Shape::Pairs { limit } => Ok(Shape::Pairs { limit: *limit }),
        Shape::Groups { keys } => Ok(Shape::Groups {
            keys: Items::from_slice(alloc, keys.as_slice())?,
        }),
    }
}

/// Copies items.
#[tactic(auto, using(crate::proofs::Loops::one_more))]
fn copied_items(alloc: Global, items: &[ChunkItem]) -> Result<ChunkItems, AllocError>
    ensures { IfOk result (λ copy. copy ≡ items.now) }
{
    let mut found = Items::new(alloc);
    for item in items {
        found.push(copied_item(alloc, item)?)?;
    }
    Ok(found)
}

/// Copies an item.
fn copied_item(alloc: Global, item: &ChunkItem) -> Result<ChunkItem, AllocError>
    ensures { IfOk result (λ copy. copy ≡ item.now) }
{
    match item {
        ChunkItem::Plain(e) => Ok(ChunkItem::Plain(copied_expr(alloc, e)?)),
        ChunkItem::Count => Ok(ChunkItem::Count),
        ChunkItem::CountOf(e) => Ok(ChunkItem::CountOf(copied_expr(alloc, e)?)),
        ChunkItem::Sum(e) => Ok(ChunkItem::Sum(copied_expr(alloc, e)?)),
        ChunkItem::Min(e) => Ok(ChunkItem::Min(copied_expr(alloc, e)?)),
        ChunkItem::Max(e) => Ok(ChunkItem::Max(copied_expr(alloc, e)?)),
    }
}

/// Copies an order.
fn copied_order(alloc: Global, order: &Option<ChunkOrder>) -> Result<Option<ChunkOrder>, AllocError>
    ensures { IfOk result (λ copy. copy ≡ order.now) }
{
    match order {
        Some(order) => Ok(Some(ChunkOrder {
            key: copied_expr(alloc, &order.key)?,
            down: order.down,
        })),
        None => Ok(None),
    }
}

/// Returns the LIMIT of the chunk query: that of the query, and none for a grouped query, whose groups may continue in
/// other chunks.
pub(crate) fn chunk_limit(shape: &Shape, limit: Option<Int>) -> Option<Int>
    ensures { result ≡ chunk_limit_of shape.now limit }
{
    match shape {
        Shape::Rows => limit,
        Shape::Pairs { .. } => limit,
        Shape::Groups { .. } => None,
    }
}
