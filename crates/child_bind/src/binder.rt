//! Binding a written query over the schemas of objects and of sources.
ghost use Rattle.std.specs.Prelude.{◌≡◌, IfOk, IfErr, Ok, Err};
ghost use Rattle.sky_io.specs.Stops.{IfBad};
ghost use Rattle.child_bind_rules.specs.ChildBinding.{child_bound_of, child_items, child_query};
ghost use Rattle.child_bind_rules.specs.PairColumns.{pair_columns, schemas_of};

use crate::checks::child_fault;
use crate::join_condition::IdOf;
use crate::scope::ChildScope;
use bind_rules::BindFault;
use child_rules::ChildBound;
use sky_io::Stop;
use sky_row::Schema;
use source_row::SourceSchema;
use sql_bind::{bound_with, listed_items};
use sql_bound::{Bound, BoundItems, Shape};
use sql_tree::{Query, Selection};
use sqlite_items::Items;
use std::alloc::{AllocError, Global};

// Binds the listed items of a query; a star has none.
fn child_items(alloc: Global, scope: &ChildScope<'_>) -> Result<BoundItems, AllocError>
    ensures { IfOk result (λ items. items ≡ child_items
        (pair_columns (schemas_of scope.now.objects.now scope.now.sources.now) scope.now.query.now)
        scope.now.query.now) }
{
    match &scope.query.items {
        Selection::Star { .. } => Ok(Items::new(alloc)),
        Selection::List(list) => listed_items(alloc, scope, list),
    }
}

// Returns the bound query of a query without a fault. Allocates memory for its trees and lists.
#[tactic(auto, unfolding(child_bind_rules::specs::ChildBinding::child_query))]
fn child_query(alloc: Global, scope: &ChildScope<'_>) -> Result<Bound, AllocError>
    ensures { IfOk result (λ bound. bound ≡ child_query
        (schemas_of scope.now.objects.now scope.now.sources.now) scope.now.query.now) }
{
    let items = child_items(alloc, scope)?;
    let id = IdOf {
        alias: &scope.query.first.alias,
    };
    Ok(bound_with(
        alloc,
        scope,
        &id,
        scope.query,
        Shape::Pairs { limit: 0 },
        items,
    )?)
}

/// Returns the bound query of a query over objects with the one schema and sources with the other, or its first fault. An
/// allocation failure may be returned in place of a bound query, but not in place of a fault. Allocates memory for the
/// bound query. Neither the query nor a schema is kept.
#[tactic(auto, unfolding(child_bind_rules::specs::ChildBinding::child_bound_of))]
pub fn bind_child(
    alloc: Global,
    query: &Query,
    objects: &Schema,
    sources: &SourceSchema,
) -> Result<ChildBound, Stop<BindFault>>
    ensures ok { IfOk result (λ child.
        child_bound_of (schemas_of objects.now sources.now) query.now ≡ Ok child.bound) }
    ensures bad { IfErr result (λ stop. IfBad stop (λ fault.
        child_bound_of (schemas_of objects.now sources.now) query.now ≡ Err fault)) }
    ensures judged { (fault : BindFault)
        → child_bound_of (schemas_of objects.now sources.now) query.now ≡ Err fault
        → result ≡ Err (Stop.Bad fault) }
{
    let scope = ChildScope {
        objects,
        sources,
        query,
    };
    match child_fault(&scope) {
        Some(fault) => Err(Stop::Bad(fault)),
        None => Ok(ChildBound {
            bound: child_query(alloc, &scope)?,
        }),
    }
}
