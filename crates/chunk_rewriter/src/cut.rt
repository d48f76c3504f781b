//! The rewriting of a query into two parts.

ghost use Rattle.std.specs.Prelude.{◌≡◌, IfOk};
ghost use Rattle.std.specs.List.{flat_map};
ghost use Rattle.answer_rules.specs.ChunkQueries.{chunk_items_of, chunk_query_of};
ghost use Rattle.answer_rules.specs.Rewriting.{merge_plan_of, merged_from, rewritten};

use crate::cond::copied_conds;
use crate::items::cut_items;
use crate::order::{chunk_order, merge_order};
use crate::query::{chunk_limit, copied_shape};
use answer_rules::{ChunkItems, ChunkQuery, MergeItems, MergePlan, Rewritten};
use sky_io::Memory;
use sql_bound::Bound;
use sqlite_items::Items;
use std::alloc::{AllocError, Global};

/// Returns the query of each chunk, and the merge that turns the chunks' results into the answer. Allocates memory for
/// both.
pub fn rewrite(alloc: Global, bound: &Bound) -> Result<Rewritten, Memory>
    ensures { IfOk result (λ cut. cut ≡ rewritten bound.now) }
{
    Ok(rewritten(alloc, bound)?)
}

/// Returns the query in two parts.
fn rewritten(alloc: Global, bound: &Bound) -> Result<Rewritten, AllocError>
    ensures { IfOk result (λ cut. cut ≡ rewritten bound.now) }
{
    let mut parts = Items::new(alloc);
    let mut merged = Items::new(alloc);
    let items = bound.items.as_slice();
    cut_items(alloc, &bound.shape, items, &mut parts, &mut merged)?;
    let merge = merge_plan(alloc, bound, merged)?;
    let chunk = chunk_query(alloc, bound, parts)?;
    Ok(Rewritten { chunk, merge })
}

/// Returns the query of each chunk, with these items.
fn chunk_query(alloc: Global, bound: &Bound, items: ChunkItems) -> Result<ChunkQuery, AllocError>
    requires { items ≡ flat_map (chunk_items_of bound.now.shape) bound.now.items }
    ensures { IfOk result (λ query. query ≡ chunk_query_of bound.now) }
{
    let conds = copied_conds(alloc, bound.conds.as_slice())?;
    let shape = copied_shape(alloc, &bound.shape)?;
    let order = chunk_order(alloc, &bound.shape, bound.items.as_slice(), bound.order)?;
    let limit = chunk_limit(&bound.shape, bound.limit);
    Ok(ChunkQuery {
        shape,
        items,
        conds,
        order,
        limit,
    })
}

/// Returns the merge, with these items.
fn merge_plan(alloc: Global, bound: &Bound, items: MergeItems) -> Result<MergePlan, AllocError>
    requires { items ≡ merged_from bound.now.shape 0 bound.now.items }
    ensures { IfOk result (λ merge. merge ≡ merge_plan_of bound.now) }
{
    let shape = copied_shape(alloc, &bound.shape)?;
    let order = merge_order(&bound.shape, bound.order);
    Ok(MergePlan {
        shape,
        items,
        order,
        limit: bound.limit,
    })
}
