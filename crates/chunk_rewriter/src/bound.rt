//! Copies of bound queries.

ghost use Rattle.std.specs.Prelude.{◌≡◌, IfOk};

use crate::cond::copied_conds;
use crate::expr::copied_expr;
use crate::query::copied_shape;
use sky_io::Memory;
use sql_bound::{Bound, BoundItem, BoundItems, IdTests, Ids};
use sqlite_items::Items;
use std::alloc::{AllocError, Global};

/// Copies a bound query; the copy has trees of its own. Allocates memory for them.
pub fn copy_of_bound(alloc: Global, query: &Bound) -> Result<Bound, Memory>
    ensures { IfOk result (λ copy. copy ≡ query.now) }
{
    Ok(copied_bound(alloc, query)?)
}

/// Copies a bound query.
fn copied_bound(alloc: Global, query: &Bound) -> Result<Bound, AllocError>
    ensures { IfOk result (λ copy. copy ≡ query.now) }
{
    let items = copied_items(alloc, query.items.as_slice())?;
    let conds = copied_conds(alloc, query.conds.as_slice())?;
    let shape = copied_shape(alloc, &query.shape)?;
    let areas = Items::from_slice(alloc, query.areas.as_slice())?;
    let ids = copied_ids(alloc, query.ids.as_slice())?;
    Ok(Bound {
        shape,
        items,
        conds,
        areas,
        ids,
        order: query.order,
        limit: query.limit,
    })
}

/// Copies items.
#[tactic(auto, using(crate::proofs::Loops::one_more))]
fn copied_items(alloc: Global, items: &[BoundItem]) -> Result<BoundItems, AllocError>
    ensures { IfOk result (λ copy. copy ≡ items.now) }
{
    let mut found = Items::new(alloc);
    for item in items {
        found.push(copied_item(alloc, item)?)?;
    }
    Ok(found)
}

/// Copies an item.
fn copied_item(alloc: Global, item: &BoundItem) -> Result<BoundItem, AllocError>
    ensures { IfOk result (λ copy. copy ≡ item.now) }
{
    match item {
        BoundItem::Plain(e) => Ok(BoundItem::Plain(copied_expr(alloc, e)?)),
        BoundItem::Count => Ok(BoundItem::Count),
        BoundItem::CountOf(e) => Ok(BoundItem::CountOf(copied_expr(alloc, e)?)),
        BoundItem::Sum(e) => Ok(BoundItem::Sum(copied_expr(alloc, e)?)),
        BoundItem::Min(e) => Ok(BoundItem::Min(copied_expr(alloc, e)?)),
        BoundItem::Max(e) => Ok(BoundItem::Max(copied_expr(alloc, e)?)),
        BoundItem::Avg(e) => Ok(BoundItem::Avg(copied_expr(alloc, e)?)),
    }
}

/// Copies the id tests, each a list of ids.
#[tactic(auto, using(crate::proofs::Loops::one_more))]
fn copied_ids(alloc: Global, tests: &[Ids]) -> Result<IdTests, AllocError>
    ensures { IfOk result (λ copy. copy ≡ tests.now) }
{
    let mut found = Items::new(alloc);
    for ids in tests {
        found.push(Items::from_slice(alloc, ids.as_slice())?)?;
    }
    Ok(found)
}
