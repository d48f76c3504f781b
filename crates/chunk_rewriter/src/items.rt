//! The items of a query, each split into its parts on a chunk and the way they are merged.

ghost use Rattle.std.specs.Prelude.{◌≡◌, ◌+◌, [], ◌∷◌, ◌++◌, IfOk, OnOk, length};
ghost use Rattle.std.specs.List.{flat_map};
ghost use Rattle.answer_rules.specs.ChunkQueries.{chunk_items_of, group_parts};
ghost use Rattle.answer_rules.specs.Rewriting.{group_merged, merged_at, merged_from};
ghost use Rattle.answer_rules.specs.ChunkQueries.{row_parts};
ghost use Rattle.answer_rules.specs.declared.rewritten.ChunkItem.TheVariants.{CountOf, Sum};

use crate::expr::copied_expr;
use answer_rules::{ChunkItem, ChunkItems, MergeItem, MergeItems};
use sql_bound::{BoundExpr, BoundItem, Shape};
use std::alloc::{AllocError, Global};

/// Appends the parts of all items to an empty chunk query, and the ways they are merged to an empty merge.
#[tactic(auto, using(crate::proofs::Loops::parts_more, crate::proofs::Loops::merged_more))]
pub(crate) fn cut_items(
    alloc: Global,
    shape: &Shape,
    items: &[BoundItem],
    chunk: &mut ChunkItems,
    merge: &mut MergeItems,
) -> Result<(), AllocError>
    requires no_part { chunk.old ≡ [] }
    requires no_item { merge.old ≡ [] }
    ensures parts { OnOk result (chunk.new ≡ flat_map (chunk_items_of shape.now) items.now) }
    ensures merged { OnOk result (merge.new ≡ merged_from shape.now 0 items.now) }
{
    for item in items {
        cut_item(alloc, shape, item, chunk, merge)?;
    }
    Ok(())
}

/// Splits one item: its parts begin where those of the items before it end.
fn cut_item(
    alloc: Global,
    shape: &Shape,
    item: &BoundItem,
    chunk: &mut ChunkItems,
    merge: &mut MergeItems,
) -> Result<(), AllocError>
    ensures parts { OnOk result (chunk.new ≡ chunk.old ++ chunk_items_of shape.now item.now) }
    ensures merged { OnOk result
        (merge.new ≡ merge.old ++ merged_at shape.now (length chunk.old) item.now ∷ []) }
{
    let place = chunk.len();
    put_parts(alloc, shape, item, chunk)?;
    let merged = merged_item(alloc, shape, item, place, chunk.len())?;
    merge.push(merged)?;
    Ok(())
}

/// Appends the parts of an item.
fn put_parts(
    alloc: Global,
    shape: &Shape,
    item: &BoundItem,
    chunk: &mut ChunkItems,
) -> Result<(), AllocError>
    ensures { OnOk result (chunk.new ≡ chunk.old ++ chunk_items_of shape.now item.now) }
{
    match shape {
        Shape::Rows => put_row_part(alloc, item, chunk),
        Shape::Pairs { .. } => put_row_part(alloc, item, chunk),
        Shape::Groups { .. } => put_group_parts(alloc, item, chunk),
    }
}

/// Appends an item of rows or pairs. An aggregate has no part there.
#[tactic(auto, using(crate::proofs::Loops::nothing_more))]
fn put_row_part(alloc: Global, item: &BoundItem, chunk: &mut ChunkItems) -> Result<(), AllocError>
    ensures { OnOk result (chunk.new ≡ chunk.old ++ row_parts item.now) }
{
    match item {
        BoundItem::Plain(e) => {
            let copy = copied_expr(alloc, e)?;
            chunk.push(ChunkItem::Plain(copy))
        }
        BoundItem::Count => Ok(()),
        BoundItem::CountOf(_) => Ok(()),
        BoundItem::Sum(_) => Ok(()),
        BoundItem::Min(_) => Ok(()),
        BoundItem::Max(_) => Ok(()),
        BoundItem::Avg(_) => Ok(()),
    }
}

/// Appends the parts of an item of a grouped query: an aggregate is its own part, and AVG is a total and a count.
#[tactic(auto, using(crate::proofs::Loops::nothing_more))]
fn put_group_parts(
    alloc: Global,
    item: &BoundItem,
    chunk: &mut ChunkItems,
) -> Result<(), AllocError>
    ensures { OnOk result (chunk.new ≡ chunk.old ++ group_parts item.now) }
{
    match item {
        BoundItem::Plain(_) => Ok(()),
        BoundItem::Count => chunk.push(ChunkItem::Count),
        BoundItem::CountOf(e) => put_count(alloc, e, chunk),
        BoundItem::Sum(e) => put_sum(alloc, e, chunk),
        BoundItem::Min(e) => {
            let copy = copied_expr(alloc, e)?;
            chunk.push(ChunkItem::Min(copy))
        }
        BoundItem::Max(e) => {
            let copy = copied_expr(alloc, e)?;
            chunk.push(ChunkItem::Max(copy))
        }
        BoundItem::Avg(e) => put_average(alloc, e, chunk),
    }
}

/// Appends a total.
fn put_sum(alloc: Global, e: &BoundExpr, chunk: &mut ChunkItems) -> Result<(), AllocError>
    ensures { OnOk result (chunk.new ≡ chunk.old ++ Sum e.now ∷ []) }
{
    let copy = copied_expr(alloc, e)?;
    chunk.push(ChunkItem::Sum(copy))
}

/// Appends a count of values.
fn put_count(alloc: Global, e: &BoundExpr, chunk: &mut ChunkItems) -> Result<(), AllocError>
    ensures { OnOk result (chunk.new ≡ chunk.old ++ CountOf e.now ∷ []) }
{
    let copy = copied_expr(alloc, e)?;
    chunk.push(ChunkItem::CountOf(copy))
}

/// Appends the two parts of an average.
#[tactic(auto, using(crate::proofs::Loops::two_more))]
fn put_average(alloc: Global, e: &BoundExpr, chunk: &mut ChunkItems) -> Result<(), AllocError>
    ensures { OnOk result (chunk.new ≡ chunk.old ++ Sum e.now ∷ CountOf e.now ∷ []) }
{
    put_sum(alloc, e, chunk)?;
    put_count(alloc, e, chunk)
}

/// Returns how an item is merged, whose parts begin at `place` and end before `end`.
fn merged_item(
    alloc: Global,
    shape: &Shape,
    item: &BoundItem,
    place: usize,
    end: usize,
) -> Result<MergeItem, AllocError>
    requires { end ≡ place + length (chunk_items_of shape.now item.now) }
    ensures { IfOk result (λ merged. merged ≡ merged_at shape.now place item.now) }
{
    match shape {
        Shape::Rows => Ok(MergeItem::Column(place)),
        Shape::Pairs { .. } => Ok(MergeItem::Column(place)),
        Shape::Groups { .. } => merged_group_item(alloc, item, place, end),
    }
}

/// Returns how an item of a grouped query is merged; a plain one is computed from the keys.
fn merged_group_item(
    alloc: Global,
    item: &BoundItem,
    place: usize,
    end: usize,
) -> Result<MergeItem, AllocError>
    requires { end ≡ place + length (group_parts item.now) }
    ensures { IfOk result (λ merged. merged ≡ group_merged place item.now) }
{
    match item {
        BoundItem::Plain(e) => Ok(MergeItem::OfKeys(copied_expr(alloc, e)?)),
        BoundItem::Count => Ok(MergeItem::Count(place)),
        BoundItem::CountOf(_) => Ok(MergeItem::Count(place)),
        BoundItem::Sum(_) => Ok(MergeItem::Sum(place)),
        BoundItem::Min(_) => Ok(MergeItem::Min(place)),
        BoundItem::Max(_) => Ok(MergeItem::Max(place)),
        BoundItem::Avg(_) => Ok(MergeItem::Avg {
            sum: place,
            count: end - 1,
        }),
    }
}
