//! The ids of the objects that a condition names: `o.objectId = k`, with the number on either side, or
//! `o.objectId IN (..)`.
ghost use Rattle.std.specs.Prelude.{◌≡◌, IfSome, false};
ghost use Rattle.std.specs.Ordering.{int_eq};
ghost use Rattle.source_rules.specs.Sources.{Source};
ghost use Rattle.source_filter.specs.Candidates.{Fails, FailsTest};
ghost use Rattle.source_filter.specs.Objects.{ListsObjects, NamesObjects};
ghost use Rattle.source_filter.specs.declared.test.Test.TheVariants.{Compare};
ghost use Rattle.sql_tree.specs.declared.cond.Cmp.TheVariants.{Equal};
ghost use Rattle.value_rules.specs.Formulas.{Among, formula_of_pred, negated_if};
ghost use Rattle.value_rules.specs.Terms.{term_of};
ghost use Rattle.value_rules.specs.Truth.{is_one_of};

use crate::column_test::{column_of, column_test};
use crate::source_column::{SourceColumn, source_column};
use crate::test::{ColumnTest, Test};
use sql_bound::{BoundCond, BoundExpr, BoundPred};
use sql_tree::Cmp;

/// Returns the id of the object that one of the conditions names, if one does.
pub(crate) fn object_in(conds: &[BoundCond]) -> Option<i64>
    ensures { IfSome result (λ id. NamesObjects conds.now (λ object. int_eq object id)) }
{
    for i in 0..conds.len() {
        if let Some(id) = id_in(&conds[i]) {
            return Some(id);
        }
    }
    None
}

/// Returns the id of the object that the condition names, if it does.
fn id_in(c: &BoundCond) -> Option<i64>
    ensures { IfSome result (λ id. (s : Source) → int_eq s.object id ≡ false → Fails c.now s) }
{
    let test = column_test(c)?;
    id_of(test)
}

/// Returns the id of the object that the test names, if it does.
fn id_of(test: ColumnTest) -> Option<i64>
    ensures { IfSome result (λ id. (s : Source) → int_eq s.object id ≡ false → FailsTest test s) }
{
    match source_column(test.col, 0) {
        Some(SourceColumn::Object) => number_in(test.test),
        _ => None,
    }
}

/// Returns the number that a value has to equal to pass the test, if there is one.
fn number_in(test: Test) -> Option<i64>
    ensures { IfSome result (λ n. test ≡ Compare Equal n) }
{
    match test {
        Test::Compare { op: Cmp::Equal, n } => Some(n),
        _ => None,
    }
}

/// Returns the ids of the objects that one of the conditions lists, if one does.
pub(crate) fn objects_in(conds: &[BoundCond]) -> Option<&[i64]>
    ensures { IfSome result (λ ids. NamesObjects conds.now (is_one_of ids.now)) }
{
    for i in 0..conds.len() {
        if let Some(ids) = ids_in(&conds[i]) {
            return Some(ids);
        }
    }
    None
}

/// Returns the ids of the objects that the condition lists, if it does.
#[tactic(auto, using(crate::proofs::Objects::plain_list))]
fn ids_in(c: &BoundCond) -> Option<&[i64]>
    ensures { IfSome result (λ ids. (s : Source) → is_one_of ids.now s.object ≡ false
        → Fails c.now s) }
{
    if c.not {
        return None;
    }
    listed(&c.pred)
}

/// Returns the ids of the objects that the predicate lists, if it does.
fn listed(pred: &BoundPred) -> Option<&[i64]>
    ensures { IfSome result (λ ids. ListsObjects (formula_of_pred pred.now) ids.now) }
{
    match pred {
        BoundPred::Among { not, value, list } => among(*not, value, list.as_slice()),
        _ => None,
    }
}

/// Returns the list of an IN, if its value is the objectId.
#[tactic(auto, using(crate::proofs::Objects::listed_objects))]
fn among<'a>(not: bool, value: &BoundExpr, list: &'a [i64]) -> Option<&'a [i64]>
    ensures { IfSome result (λ ids.
        ListsObjects (negated_if not (Among (term_of value.now) list.now)) ids.now) }
{
    if not {
        return None;
    }
    match source_column(column_of(value)?, 0) {
        Some(SourceColumn::Object) => Some(list),
        _ => None,
    }
}
