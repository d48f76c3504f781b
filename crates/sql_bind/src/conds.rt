//! Bound conditions, with columns in place of names, as a whole. Each function binds one level of the tree. A condition
//! that contains a chord test, or an area test whose arguments do not fit, has no bound condition.
ghost use Rattle.std.specs.Prelude.{◌≡◌, map, IfOk, IsOkAnd, Some};
ghost use Rattle.bind_rules.specs.Wholes.{all_there, any_by, bound_all, bound_any, bound_cond, bound_pred, conj_by};

use crate::preds::{among, area, between, compare, is_null};
use bind_checks::Columns;
use sql_bound::{BoundAll, BoundAny, BoundCond, BoundPred};
use sql_tree::{Cond, Conj, Neg, Pred};
use sqlite_items::{Boxed, Items};
use std::alloc::{AllocError, Global};

/// Binds the condition, if it neither is a chord test nor contains one. Allocates memory for it.
#[cycle(whole)]
#[tactic(auto, using(crate::proofs::CondLayers::cond_whole))]
pub(crate) fn whole_cond<C: Columns>(
    alloc: Global,
    columns: &C,
    cond: &Cond,
) -> Result<Option<BoundAny>, AllocError>
    ensures { IfOk result (λ whole. whole ≡ bound_any (C.means columns.now) cond.now) }
{
    match whole_conj(alloc, columns, &cond.first)? {
        Some(first) => any_with(first, whole_conjs(alloc, columns, cond.rest.as_slice())),
        None => Ok(None),
    }
}

// Returns the disjunction of a conjunction and those after it, if all are there.
fn any_with(
    first: BoundAll,
    rest: Result<Option<Items<BoundAll>>, AllocError>,
) -> Result<Option<BoundAny>, AllocError>
    ensures { IfOk result (λ whole. IsOkAnd rest (λ more. whole ≡ any_by (Some first) more)) }
{
    match rest? {
        Some(rest) => Ok(Some(BoundAny { first, rest })),
        None => Ok(None),
    }
}

// Binds the conjunctions of a condition after the first.
#[cycle(whole)]
#[tactic(auto, using(query_walks::proofs::Loops::there_none, query_walks::proofs::Loops::there_more, query_walks::proofs::Loops::there_stops, query_walks::proofs::Loops::there_end))]
fn whole_conjs<C: Columns>(
    alloc: Global,
    columns: &C,
    rest: &[Conj],
) -> Result<Option<Items<BoundAll>>, AllocError>
    ensures { IfOk result (λ whole.
        whole ≡ all_there (map (bound_all (C.means columns.now)) rest.now)) }
{
    let mut found = Items::new(alloc);
    for conj in rest {
        let Some(whole) = whole_conj(alloc, columns, conj)? else {
            return Ok(None);
        };
        found.push(whole)?;
    }
    Ok(Some(found))
}

// Binds a conjunction.
#[cycle(whole)]
#[tactic(auto, using(crate::proofs::CondLayers::conj_whole))]
fn whole_conj<C: Columns>(
    alloc: Global,
    columns: &C,
    conj: &Conj,
) -> Result<Option<BoundAll>, AllocError>
    ensures { IfOk result (λ whole. whole ≡ bound_all (C.means columns.now) conj.now) }
{
    match whole_neg(alloc, columns, &conj.first)? {
        Some(first) => all_with(first, whole_negs(alloc, columns, conj.rest.as_slice())),
        None => Ok(None),
    }
}

// Returns the conjunction of a predicate and those after it, if all are there.
fn all_with(
    first: BoundCond,
    rest: Result<Option<Items<BoundCond>>, AllocError>,
) -> Result<Option<BoundAll>, AllocError>
    ensures { IfOk result (λ whole. IsOkAnd rest (λ more. whole ≡ conj_by (Some first) more)) }
{
    match rest? {
        Some(rest) => Ok(Some(BoundAll { first, rest })),
        None => Ok(None),
    }
}

// Binds the predicates of a conjunction after the first.
#[cycle(whole)]
#[tactic(auto, using(query_walks::proofs::Loops::there_none, query_walks::proofs::Loops::there_more, query_walks::proofs::Loops::there_stops, query_walks::proofs::Loops::there_end))]
fn whole_negs<C: Columns>(
    alloc: Global,
    columns: &C,
    rest: &[Neg],
) -> Result<Option<Items<BoundCond>>, AllocError>
    ensures { IfOk result (λ whole.
        whole ≡ all_there (map (bound_cond (C.means columns.now)) rest.now)) }
{
    let mut found = Items::new(alloc);
    for neg in rest {
        let Some(whole) = whole_neg(alloc, columns, neg)? else {
            return Ok(None);
        };
        found.push(whole)?;
    }
    Ok(Some(found))
}

/// Binds a predicate, and the NOT before it.
#[cycle(whole)]
#[tactic(auto, using(crate::proofs::CondLayers::neg_whole))]
pub(crate) fn whole_neg<C: Columns>(
    alloc: Global,
    columns: &C,
    neg: &Neg,
) -> Result<Option<BoundCond>, AllocError>
    ensures { IfOk result (λ whole. whole ≡ bound_cond (C.means columns.now) neg.now) }
{
    match whole_pred(alloc, columns, &neg.pred)? {
        Some(pred) => Ok(Some(BoundCond { not: neg.not, pred })),
        None => Ok(None),
    }
}

/// Binds a predicate.
#[cycle(whole)]
#[tactic(auto, using(crate::proofs::CondLayers::compare_whole, crate::proofs::CondLayers::between_whole, crate::proofs::CondLayers::among_whole, crate::proofs::CondLayers::null_whole, crate::proofs::CondLayers::area_whole, crate::proofs::CondLayers::chord_whole))]
pub(crate) fn whole_pred<C: Columns>(
    alloc: Global,
    columns: &C,
    pred: &Pred,
) -> Result<Option<BoundPred>, AllocError>
    ensures { IfOk result (λ whole. whole ≡ bound_pred (C.means columns.now) pred.now) }
{
    match pred {
        Pred::Bracket(cond) => whole_group(alloc, columns, cond.get()),
        Pred::Compare { left, op, right } => Ok(Some(compare(alloc, columns, left, *op, right)?)),
        Pred::Between {
            not,
            value,
            low,
            high,
        } => Ok(Some(between(alloc, columns, *not, value, low, high)?)),
        Pred::Among { not, value, list } => Ok(Some(among(alloc, columns, *not, value, list)?)),
        Pred::IsNull { not, value } => Ok(Some(is_null(alloc, columns, *not, value)?)),
        Pred::Area { kind, args, .. } => Ok(area(*kind, args)),
        Pred::Chord { .. } => Ok(None),
    }
}

// Binds a condition in brackets.
#[cycle(whole)]
#[tactic(auto, using(crate::proofs::CondLayers::group_whole))]
fn whole_group<C: Columns>(
    alloc: Global,
    columns: &C,
    cond: &Cond,
) -> Result<Option<BoundPred>, AllocError>
    ensures { IfOk result (λ whole.
        whole ≡ bound_pred (C.means columns.now) (Pred.Bracket cond.now)) }
{
    match whole_cond(alloc, columns, cond)? {
        Some(inner) => Ok(Some(BoundPred::Bracket(Boxed::new(alloc, inner)?))),
        None => Ok(None),
    }
}
