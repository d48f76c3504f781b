//! Copies of conditions. Each function copies one level of the tree, and its list first: if an allocation then fails,
//! the list is dropped as one.

ghost use Rattle.std.specs.Prelude.{◌≡◌, IfOk};
ghost use Rattle.sql_bound.specs.declared.cond.BoundPred.TheVariants.{Among, Between, Bracket, Compare, IsNull};

use crate::expr::copied_expr;
use sql_bound::{BoundAll, BoundAny, BoundCond, BoundConds, BoundExpr, BoundPred, Cmp};
use sqlite_items::{Boxed, Items};
use std::alloc::{AllocError, Global};

// Copies a disjunction.
#[cycle(again)]
#[tactic(auto, using(crate::proofs::Layers::any_again))]
fn copied_any(alloc: Global, any: &BoundAny) -> Result<BoundAny, AllocError>
    ensures { IfOk result (λ copy. copy ≡ any.now) }
{
    let rest = copied_alls(alloc, any.rest.as_slice())?;
    let first = copied_all(alloc, &any.first)?;
    Ok(BoundAny { first, rest })
}

// Copies the conjunctions of a disjunction after the first.
#[cycle(again)]
#[tactic(auto, using(crate::proofs::Loops::one_more))]
fn copied_alls(alloc: Global, rest: &[BoundAll]) -> Result<Items<BoundAll>, AllocError>
    ensures { IfOk result (λ copy. copy ≡ rest.now) }
{
    let mut found = Items::new(alloc);
    for all in rest {
        found.push(copied_all(alloc, all)?)?;
    }
    Ok(found)
}

// Copies a conjunction.
#[cycle(again)]
#[tactic(auto, using(crate::proofs::Layers::all_again))]
fn copied_all(alloc: Global, all: &BoundAll) -> Result<BoundAll, AllocError>
    ensures { IfOk result (λ copy. copy ≡ all.now) }
{
    let rest = copied_conds(alloc, all.rest.as_slice())?;
    let first = copied_cond(alloc, &all.first)?;
    Ok(BoundAll { first, rest })
}

/// Copies conditions. Allocates memory for the copies.
#[cycle(again)]
#[tactic(auto, using(crate::proofs::Loops::one_more))]
pub(crate) fn copied_conds(alloc: Global, conds: &[BoundCond]) -> Result<BoundConds, AllocError>
    ensures { IfOk result (λ copy. copy ≡ conds.now) }
{
    let mut found = Items::new(alloc);
    for cond in conds {
        found.push(copied_cond(alloc, cond)?)?;
    }
    Ok(found)
}

// Copies a condition.
#[cycle(again)]
#[tactic(auto, using(crate::proofs::Layers::cond_again))]
fn copied_cond(alloc: Global, cond: &BoundCond) -> Result<BoundCond, AllocError>
    ensures { IfOk result (λ copy. copy ≡ cond.now) }
{
    let pred = copied_pred(alloc, &cond.pred)?;
    Ok(BoundCond {
        not: cond.not,
        pred,
    })
}

// Copies a test.
#[cycle(again)]
fn copied_pred(alloc: Global, pred: &BoundPred) -> Result<BoundPred, AllocError>
    ensures { IfOk result (λ copy. copy ≡ pred.now) }
{
    match pred {
        BoundPred::Bracket(any) => copied_bracket(alloc, any.get()),
        BoundPred::Compare { left, op, right } => compare(alloc, left, *op, right),
        BoundPred::Between {
            not,
            value,
            low,
            high,
        } => between(alloc, *not, value, low, high),
        BoundPred::Among { not, value, list } => among(alloc, *not, value, list.as_slice()),
        BoundPred::IsNull { not, value } => is_null(alloc, *not, value),
        BoundPred::Area(area) => Ok(BoundPred::Area(*area)),
    }
}

// Copies a condition in brackets.
#[cycle(again)]
fn copied_bracket(alloc: Global, any: &BoundAny) -> Result<BoundPred, AllocError>
    ensures { IfOk result (λ copy. copy ≡ Bracket any.now) }
{
    let inner = copied_any(alloc, any)?;
    Ok(BoundPred::Bracket(Boxed::new(alloc, inner)?))
}

/// Copies a comparison.
fn compare(
    alloc: Global,
    left: &BoundExpr,
    op: Cmp,
    right: &BoundExpr,
) -> Result<BoundPred, AllocError>
    ensures { IfOk result (λ copy. copy ≡ Compare left.now op right.now) }
{
    let left = copied_expr(alloc, left)?;
    let right = copied_expr(alloc, right)?;
    Ok(BoundPred::Compare { left, op, right })
}

/// Copies a test between two bounds.
fn between(
    alloc: Global,
    not: bool,
    value: &BoundExpr,
    low: &BoundExpr,
    high: &BoundExpr,
) -> Result<BoundPred, AllocError>
    ensures { IfOk result (λ copy. copy ≡ Between not value.now low.now high.now) }
{
    let value = copied_expr(alloc, value)?;
    let low = copied_expr(alloc, low)?;
    let high = copied_expr(alloc, high)?;
    Ok(BoundPred::Between {
        not,
        value,
        low,
        high,
    })
}

/// Copies a test among a list.
fn among(alloc: Global, not: bool, value: &BoundExpr, list: &[i64]) -> Result<BoundPred, AllocError>
    ensures { IfOk result (λ copy. copy ≡ Among not value.now list.now) }
{
    let list = Items::from_slice(alloc, list)?;
    let value = copied_expr(alloc, value)?;
    Ok(BoundPred::Among { not, value, list })
}

/// Copies a test for NULL.
fn is_null(alloc: Global, not: bool, value: &BoundExpr) -> Result<BoundPred, AllocError>
    ensures { IfOk result (λ copy. copy ≡ IsNull not value.now) }
{
    let value = copied_expr(alloc, value)?;
    Ok(BoundPred::IsNull { not, value })
}
