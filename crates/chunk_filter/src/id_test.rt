//! The rows of a block on which an id test holds.
//!
//! An id test is a condition `objectId = k`, with the number on either side, or `objectId IN (..)`.
ghost use Rattle.std.specs.Prelude.{◌≡◌, ◌<◌, ◌^◌, [], ◌∷◌, IfOk, IfSome, length, map};
ghost use Rattle.lane_filter.specs.Tests.{places_of};
ghost use Rattle.sql_tree.specs.declared.cond.Cmp.TheVariants.{Equal};
ghost use Rattle.table_rules.specs.Objects.{IdsAscend};
ghost use Rattle.value_rules.specs.Formulas.{Among, formula_of, formula_of_pred, negated_if};
ghost use Rattle.value_rules.specs.Terms.{term_of};
ghost use Rattle.chunk_filter.specs.Asking.{AsksForIds, holds_on};
ghost use Rattle.chunk_filter.specs.declared.predicate.Predicate.TheVariants.{Compare};

use crate::id_rows::rows_with;
use crate::predicate::Predicate;
use crate::scratch::Scratch;
use crate::vectorized::vectorized;
use column_block::Block;
use column_eval::column_of;
use sky_io::Memory;
use sql_bound::{BoundCond, BoundExpr, BoundPred};
use sql_tree::Cmp;

/// Returns the numbers of the rows on which the condition holds, ascending, in a vector of the scratch, if the
/// condition is an id test.
pub(crate) fn rows_by_id(
    block: &Block,
    c: &BoundCond,
    scratch: &mut Scratch,
) -> Result<Option<Vec<u32>>, Memory>
    requires few { length block.now.objects < 2 ^ 32 }
    requires ascend { IdsAscend block.now.objects }
    ensures { IfOk result (λ found. IfSome found (λ places. places.items
        ≡ places_of (map (holds_on (formula_of c.now)) block.now.objects))) }
{
    if let Some(id) = id_of(c) {
        return Ok(Some(held_rows(block, c, &[id], scratch)?));
    }
    match ids_of(c) {
        Some(ids) => Ok(Some(held_rows(block, c, ids, scratch)?)),
        None => Ok(None),
    }
}

/// Returns the numbers of the rows that have one of the ids that the condition asks for.
fn held_rows(
    block: &Block,
    c: &BoundCond,
    ids: &[i64],
    scratch: &mut Scratch,
) -> Result<Vec<u32>, Memory>
    requires few { length block.now.objects < 2 ^ 32 }
    requires ascend { IdsAscend block.now.objects }
    requires asks { AsksForIds (formula_of c.now) ids.now }
    ensures { IfOk result (λ places. places.items
        ≡ places_of (map (holds_on (formula_of c.now)) block.now.objects)) }
{
    rows_with(block, block.ids(), ids, scratch)
}

/// Returns the id that the condition compares with, if it is such a comparison.
#[tactic(auto, using(crate::proofs::IdTests::one_id))]
fn id_of(c: &BoundCond) -> Option<i64>
    ensures { IfSome result (λ id. AsksForIds (formula_of c.now) (id ∷ [])) }
{
    let vectorized = vectorized(c)?;
    if vectorized.whole {
        compared_id(vectorized.test)
    } else {
        None
    }
}

/// Returns the id that the predicate compares with, if it is such a comparison.
fn compared_id(test: Predicate) -> Option<i64>
    ensures { IfSome result (λ id. test ≡ Compare 0 Equal id) }
{
    match test {
        Predicate::Compare {
            col: 0,
            op: Cmp::Equal,
            n,
        } => Some(n),
        _ => None,
    }
}

/// Returns the ids that the condition lists, if it is an IN of ids.
#[tactic(auto, using(crate::proofs::IdTests::plain_ids))]
fn ids_of(c: &BoundCond) -> Option<&[i64]>
    ensures { IfSome result (λ ids. AsksForIds (formula_of c.now) ids.now) }
{
    if c.not {
        return None;
    }
    listed_ids(&c.pred)
}

/// Returns the ids of a predicate without NOT, if it is an IN of ids.
fn listed_ids(pred: &BoundPred) -> Option<&[i64]>
    ensures { IfSome result (λ ids. AsksForIds (formula_of_pred pred.now) ids.now) }
{
    match pred {
        BoundPred::Among { not, value, list } => ids_among(*not, value, list.as_slice()),
        _ => None,
    }
}

/// Returns the list of an IN, if its value is the column of the ids.
#[tactic(auto, using(crate::proofs::IdTests::listed_ids))]
fn ids_among<'a>(not: bool, value: &BoundExpr, list: &'a [i64]) -> Option<&'a [i64]>
    ensures { IfSome result (λ ids.
        AsksForIds (negated_if not (Among (term_of value.now) list.now)) ids.now) }
{
    if not {
        return None;
    }
    match column_of(value) {
        Some(0) => Some(list),
        _ => None,
    }
}
