//! The bound query of a query without a fault.
ghost use Rattle.std.specs.Prelude.{◌≡◌, IfOk};
ghost use Rattle.std.specs.List.{flat_map};
ghost use Rattle.bind_rules.specs.Binding.{bound_items, bound_query, bound_shape, query_by};
ghost use Rattle.bind_rules.specs.IdTests.{areas_by, ids_by};
ghost use Rattle.bind_rules.specs.Tops.{top_tests};
ghost use Rattle.sql_bind.specs.Scopes.{scope_of};

use crate::areas::areas_of;
use crate::conjuncts::conjuncts;
use crate::ids::ids_of;
use crate::items::bound_items;
use crate::order::bound_order;
use crate::scope::{FirstId, Scope};
use crate::shape::bound_shape;
use bind_checks::{ColumnTest, Columns};
use sky_row::Schema;
use sql_bound::{Areas, Bound, BoundItems, IdTests, Shape};
use sql_tree::Query;
use std::alloc::{AllocError, Global};

// Returns the shape and the items.
fn front(alloc: Global, scope: &Scope<'_>, query: &Query) -> Result<(Shape, BoundItems), AllocError>
    ensures { IfOk result (λ front.
        (front.0 ≡ bound_shape (scope_of scope.now.schema.now scope.now.query.now) query.now)
        × (front.1 ≡ bound_items (scope_of scope.now.schema.now scope.now.query.now) query.now
        query.now.items)) }
{
    let shape = bound_shape(alloc, scope, query)?;
    let items = bound_items(alloc, scope, query)?;
    Ok((shape, items))
}

// Returns the area tests and the id tests.
fn tests<T: ColumnTest>(
    alloc: Global,
    id: &T,
    query: &Query,
) -> Result<(Areas, IdTests), AllocError>
    ensures { IfOk result (λ tests.
        (tests.0 ≡ flat_map areas_by (top_tests query.now.cond))
        × (tests.1 ≡ flat_map (ids_by (T.passes id.now)) (top_tests query.now.cond))) }
{
    let areas = areas_of(alloc, query)?;
    let ids = ids_of(alloc, id, query)?;
    Ok((areas, ids))
}

/// Returns the bound query with this shape and these items; `id` is the test of a column that it is the id of the first
/// table. Allocates memory for its conditions and tests.
pub fn bound_with<C: Columns, T: ColumnTest>(
    alloc: Global,
    columns: &C,
    id: &T,
    query: &Query,
    shape: Shape,
    items: BoundItems,
) -> Result<Bound, AllocError>
    ensures { IfOk result (λ bound. bound
        ≡ query_by (C.means columns.now) (T.passes id.now) query.now shape items) }
{
    let conds = conjuncts(alloc, columns, &query.cond)?;
    let (areas, ids) = tests(alloc, id, query)?;
    let order = bound_order(columns, query);
    Ok(Bound {
        shape,
        items,
        conds,
        areas,
        ids,
        order,
        limit: query.limit,
    })
}

/// Returns the bound query of a query over the object table. Allocates memory for its trees and lists.
#[tactic(auto, using(crate::proofs::Queries::whole_query))]
pub(crate) fn bound_query(
    alloc: Global,
    query: &Query,
    schema: &Schema,
) -> Result<Bound, AllocError>
    ensures { IfOk result (λ bound. bound ≡ bound_query (scope_of schema.now query.now) query.now) }
{
    let scope = Scope { schema, query };
    let (shape, items) = front(alloc, &scope, query)?;
    let id = FirstId { scope: &scope };
    Ok(bound_with(alloc, &scope, &id, query, shape, items)?)
}
