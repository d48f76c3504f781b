//! The conjuncts of WHERE, with columns in place of names. Brackets are opened, AND and an OR of one part are split,
//! and NOT is not entered. A chord test is left out.
ghost use Rattle.std.specs.Prelude.{◌≡◌, ◌++◌, IfOk, OnOk, Some, option_to_list};
ghost use Rattle.std.specs.List.{flat_map};
ghost use Rattle.bind_rules.specs.Wholes.{bound_any, bound_cond, bound_pred, bracket, conds_in};
ghost use Rattle.sql_bind.specs.Layers.{as_cond, conds_of_cond, conds_of_conj, conds_of_neg, conds_of_pred};

use crate::conds::{whole_cond, whole_neg, whole_pred};
use bind_checks::Columns;
use sql_bound::{BoundCond, BoundConds, BoundPred};
use sql_tree::{Cond, Conj, Neg, Pred};
use sqlite_items::{Boxed, Items};
use std::alloc::{AllocError, Global};

/// Returns the conjuncts of WHERE. Allocates memory for them.
pub(crate) fn conjuncts<C: Columns>(
    alloc: Global,
    columns: &C,
    cond: &Option<Cond>,
) -> Result<BoundConds, AllocError>
    ensures { IfOk result (λ conds. conds ≡ conds_in (C.means columns.now) cond.now) }
{
    let mut found = Items::new(alloc);
    match cond {
        Some(cond) => {
            add_cond(alloc, columns, cond, &mut found)?;
            Ok(found)
        }
        None => Ok(found),
    }
}

// Adds the conjuncts of the only part, or the whole condition if it has more than one part.
#[cycle(top)]
#[tactic(auto, using(crate::proofs::CondLayers::cond_one, crate::proofs::CondLayers::cond_more))]
fn add_cond<C: Columns>(
    alloc: Global,
    columns: &C,
    cond: &Cond,
    found: &mut BoundConds,
) -> Result<(), AllocError>
    ensures { OnOk result (found.new ≡ found.old ++ conds_of_cond (C.means columns.now) cond.now) }
{
    if cond.rest.is_empty() {
        add_conj(alloc, columns, &cond.first, found)
    } else {
        add_bracket(alloc, columns, cond, found)
    }
}

// Adds a condition in brackets, if it neither is a chord test nor contains one.
fn add_bracket<C: Columns>(
    alloc: Global,
    columns: &C,
    cond: &Cond,
    found: &mut BoundConds,
) -> Result<(), AllocError>
    ensures { OnOk result (found.new
        ≡ found.old ++ as_cond (bracket (bound_any (C.means columns.now) cond.now))) }
{
    match whole_cond(alloc, columns, cond)? {
        Some(inner) => add_plain(found, BoundPred::Bracket(Boxed::new(alloc, inner)?)),
        None => Ok(()),
    }
}

// Adds a predicate without NOT.
fn add_plain(found: &mut BoundConds, pred: BoundPred) -> Result<(), AllocError>
    ensures { OnOk result (found.new ≡ found.old ++ as_cond (Some pred)) }
{
    found.push(BoundCond { not: false, pred })?;
    Ok(())
}

// Adds the conjuncts of each part.
#[cycle(top)]
#[tactic(auto, using(crate::proofs::CondLayers::conj_conjuncts, query_walks::proofs::Loops::then_rest))]
fn add_conj<C: Columns>(
    alloc: Global,
    columns: &C,
    conj: &Conj,
    found: &mut BoundConds,
) -> Result<(), AllocError>
    ensures { OnOk result (found.new ≡ found.old ++ conds_of_conj (C.means columns.now) conj.now) }
{
    add_neg(alloc, columns, &conj.first, found)?;
    add_negs(alloc, columns, conj.rest.as_slice(), found)
}

// Adds the conjuncts of the parts after the first.
#[cycle(top)]
#[tactic(auto, using(query_walks::proofs::Loops::flat_more))]
fn add_negs<C: Columns>(
    alloc: Global,
    columns: &C,
    rest: &[Neg],
    found: &mut BoundConds,
) -> Result<(), AllocError>
    ensures { OnOk result (found.new
        ≡ found.old ++ flat_map (conds_of_neg (C.means columns.now)) rest.now) }
{
    for neg in rest {
        add_neg(alloc, columns, neg, found)?;
    }
    Ok(())
}

// Adds a negation as it is, or else the conjuncts of the predicate.
#[cycle(top)]
#[tactic(auto, using(crate::proofs::CondLayers::neg_with, crate::proofs::CondLayers::neg_without))]
fn add_neg<C: Columns>(
    alloc: Global,
    columns: &C,
    neg: &Neg,
    found: &mut BoundConds,
) -> Result<(), AllocError>
    ensures { OnOk result (found.new ≡ found.old ++ conds_of_neg (C.means columns.now) neg.now) }
{
    if neg.not {
        add_whole_neg(alloc, columns, neg, found)
    } else {
        add_pred(alloc, columns, &neg.pred, found)
    }
}

// Adds a negation, if it contains no chord test.
fn add_whole_neg<C: Columns>(
    alloc: Global,
    columns: &C,
    neg: &Neg,
    found: &mut BoundConds,
) -> Result<(), AllocError>
    ensures { OnOk result (found.new
        ≡ found.old ++ option_to_list (bound_cond (C.means columns.now) neg.now)) }
{
    match whole_neg(alloc, columns, neg)? {
        Some(cond) => {
            found.push(cond)?;
            Ok(())
        }
        None => Ok(()),
    }
}

// Adds the conjuncts of a condition in brackets, or another predicate as it is.
#[cycle(top)]
#[tactic(auto, using(crate::proofs::CondLayers::group_conjuncts, crate::proofs::CondLayers::compare_lone, crate::proofs::CondLayers::between_lone, crate::proofs::CondLayers::among_lone, crate::proofs::CondLayers::null_lone, crate::proofs::CondLayers::area_lone, crate::proofs::CondLayers::chord_lone))]
fn add_pred<C: Columns>(
    alloc: Global,
    columns: &C,
    pred: &Pred,
    found: &mut BoundConds,
) -> Result<(), AllocError>
    ensures { OnOk result (found.new ≡ found.old ++ conds_of_pred (C.means columns.now) pred.now) }
{
    match pred {
        Pred::Bracket(cond) => add_cond(alloc, columns, cond.get(), found),
        Pred::Compare { .. } => add_lone(alloc, columns, pred, found),
        Pred::Between { .. } => add_lone(alloc, columns, pred, found),
        Pred::Among { .. } => add_lone(alloc, columns, pred, found),
        Pred::IsNull { .. } => add_lone(alloc, columns, pred, found),
        Pred::Area { .. } => add_lone(alloc, columns, pred, found),
        Pred::Chord { .. } => add_lone(alloc, columns, pred, found),
    }
}

// Adds a predicate, if it neither is a chord test nor contains one.
fn add_lone<C: Columns>(
    alloc: Global,
    columns: &C,
    pred: &Pred,
    found: &mut BoundConds,
) -> Result<(), AllocError>
    ensures { OnOk result (found.new
        ≡ found.old ++ as_cond (bound_pred (C.means columns.now) pred.now)) }
{
    match whole_pred(alloc, columns, pred)? {
        Some(pred) => add_plain(found, pred),
        None => Ok(()),
    }
}
