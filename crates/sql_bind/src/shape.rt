//! What a query ranges over: the rows, pairs up to a limit, or groups.
ghost use Rattle.std.specs.Prelude.{◌≡◌, map, IfOk, if◌then◌else◌};
ghost use Rattle.bind_rules.specs.Binding.{shape_of};
ghost use Rattle.bind_rules.specs.Names.{is_grouped};

use crate::chord_limit::chord_limit;
use bind_checks::{Columns, is_grouped, is_join};
use sql_bound::{ColList, Shape};
use sql_tree::{Col, Query};
use sqlite_items::Items;
use std::alloc::{AllocError, Global};

// Binds columns.
#[tactic(auto, using(query_walks::proofs::Loops::map_more))]
fn bound_cols<C: Columns>(alloc: Global, columns: &C, cols: &[Col]) -> Result<ColList, AllocError>
    ensures { IfOk result (λ keys. keys ≡ map (C.means columns.now) cols.now) }
{
    let mut found = Items::new(alloc);
    for col in cols {
        found.push(columns.column(col))?;
    }
    Ok(found)
}

// Returns rows, or groups by their keys.
fn shape_of_one<C: Columns>(alloc: Global, columns: &C, query: &Query) -> Result<Shape, AllocError>
    ensures { IfOk result (λ shape. shape
        ≡ (if is_grouped query.now then Shape.Groups (map (C.means columns.now) query.now.group)
        else Shape.Rows)) }
{
    if is_grouped(query) {
        let keys = bound_cols(alloc, columns, query.group.as_slice())?;
        Ok(Shape::Groups { keys })
    } else {
        Ok(Shape::Rows)
    }
}

/// Returns what the query ranges over. Allocates memory for the keys of groups.
pub(crate) fn bound_shape<C: Columns>(
    alloc: Global,
    columns: &C,
    query: &Query,
) -> Result<Shape, AllocError>
    ensures { IfOk result (λ shape. shape ≡ shape_of (C.means columns.now) query.now) }
{
    if is_join(query) {
        Ok(Shape::Pairs {
            limit: chord_limit(query),
        })
    } else {
        shape_of_one(alloc, columns, query)
    }
}
