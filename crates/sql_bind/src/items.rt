//! The items between SELECT and FROM, with columns in place of names.
ghost use Rattle.std.specs.Prelude.{◌≡◌, ◌++◌, [], ◌∷◌, IfOk, OnOk, map};
ghost use Rattle.bind_rules.specs.Binding.{bound_items, columns_from, item_by, just_column, star_items};
ghost use Rattle.bind_rules.specs.Columns.{is_join};
ghost use Rattle.sql_bind.specs.Layers.{item_in};
ghost use Rattle.sql_bind.specs.Scopes.{scope_of};
ghost use Rattle.table_rules.specs.Names.{column_names};

use crate::exprs::bound_expr;
use crate::scope::Scope;
use bind_checks::{Columns, is_join};
use sky_row::Schema;
use sql_bound::{BoundAtom, BoundCol, BoundExpr, BoundFactor, BoundItem, BoundItems, BoundProd};
use sql_tree::{ItemKind, ItemList, Query, Selection};
use sqlite_items::Items;
use std::alloc::{AllocError, Global};

// Returns the expression that is one column. Does not allocate.
fn just_column(alloc: Global, second: bool, col: u32) -> BoundExpr
    ensures { result ≡ just_column second col }
{
    let atom = BoundAtom::Col(BoundCol { second, col });
    let first = BoundFactor { minus: false, atom };
    let first = BoundProd {
        first,
        rest: Items::new(alloc),
    };
    BoundExpr {
        first,
        rest: Items::new(alloc),
    }
}

// Adds all columns of a table.
#[tactic(auto, using(crate::proofs::Stars::columns_more, crate::proofs::Stars::columns_end))]
fn add_columns(
    alloc: Global,
    schema: &Schema,
    second: bool,
    found: &mut BoundItems,
) -> Result<(), AllocError>
    ensures { OnOk result (found.new
        ≡ found.old ++ columns_from second 0 (column_names schema.now)) }
{
    for col in 0..schema.width() {
        found.push(BoundItem::Plain(just_column(alloc, second, col)))?;
    }
    Ok(())
}

// Returns all columns of the first table, and in a join all of the second.
fn star_items(alloc: Global, schema: &Schema, join: bool) -> Result<BoundItems, AllocError>
    ensures { IfOk result (λ items. items ≡ star_items schema.now join) }
{
    let mut found = Items::new(alloc);
    add_columns(alloc, schema, false, &mut found)?;
    if join {
        add_columns(alloc, schema, true, &mut found)?;
    }
    Ok(found)
}

// Binds an item, without its alias.
fn bound_item<C: Columns>(
    alloc: Global,
    columns: &C,
    what: &ItemKind,
) -> Result<BoundItem, AllocError>
    ensures { IfOk result (λ item. item ≡ item_by (C.means columns.now) what.now) }
{
    match what {
        ItemKind::Plain(e) => Ok(BoundItem::Plain(bound_expr(alloc, columns, e)?)),
        ItemKind::Count => Ok(BoundItem::Count),
        ItemKind::CountOf(e) => Ok(BoundItem::CountOf(bound_expr(alloc, columns, e)?)),
        ItemKind::Sum(e) => Ok(BoundItem::Sum(bound_expr(alloc, columns, e)?)),
        ItemKind::Min(e) => Ok(BoundItem::Min(bound_expr(alloc, columns, e)?)),
        ItemKind::Max(e) => Ok(BoundItem::Max(bound_expr(alloc, columns, e)?)),
        ItemKind::Avg(e) => Ok(BoundItem::Avg(bound_expr(alloc, columns, e)?)),
    }
}

/// Binds the items of a list. Allocates memory for them.
#[tactic(auto, using(query_walks::proofs::Loops::map_more))]
pub fn listed_items<C: Columns>(
    alloc: Global,
    columns: &C,
    list: &ItemList,
) -> Result<BoundItems, AllocError>
    ensures { IfOk result (λ items. items
        ≡ map (item_in (C.means columns.now)) (list.now.first ∷ list.now.rest)) }
{
    let mut found = Items::new(alloc);
    found.push(bound_item(alloc, columns, &list.first.what)?)?;
    for item in list.rest.as_slice() {
        found.push(bound_item(alloc, columns, &item.what)?)?;
    }
    Ok(found)
}

/// Binds the items of a query. Allocates memory for them.
pub(crate) fn bound_items(
    alloc: Global,
    scope: &Scope<'_>,
    query: &Query,
) -> Result<BoundItems, AllocError>
    ensures { IfOk result (λ items. items ≡ bound_items
        (scope_of scope.now.schema.now scope.now.query.now) query.now query.now.items) }
{
    match &query.items {
        Selection::Star { .. } => star_items(alloc, scope.schema, is_join(query)),
        Selection::List(list) => listed_items(alloc, scope, list),
    }
}
