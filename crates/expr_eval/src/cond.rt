//! The truth value of a condition. Each function evaluates one level of the tree.

ghost use Rattle.std.specs.Prelude.{◌≡◌, IsTrue};
ghost use Rattle.std.specs.List.{list_all};
ghost use Rattle.expr_eval.specs.Picks.{AreOfOneTable, AreRows, IsSoundTest, is_there, pick_of, truth_on};
ghost use Rattle.value_rules.specs.Formulas.{formula_of, formula_of_all, formula_of_any, formula_of_pred};
ghost use Rattle.value_rules.specs.Sound.{is_sound_cond};
ghost use Rattle.value_rules.specs.Truth.{holds, meets, truth_of};

use crate::area::area_holds;
use crate::column::know;
use crate::pred::{among, between, compare, is_null};
use crate::three::{both, either, is, is_true, negated_if};
use sky_row::Row;
use sql_bound::{BoundAll, BoundAny, BoundCond, BoundPred};

/// Returns the truth value of the condition on the row, or on the pair of rows; `None` is unknown. If a column of the
/// second row is named, the second row is there; it has as many values as the first. Does not allocate.
pub fn truth(c: &BoundCond, first: &Row, second: Option<&Row>) -> Option<bool>
    requires wide { AreOfOneTable (pick_of first.now second) }
    requires sound { IsTrue (is_sound_cond (is_there (pick_of first.now second)) c.now) }
    ensures { result ≡ truth_of c.now (pick_of first.now second.entry) }
{
    know(first, second);
    one(c, first, second)
}

/// Returns whether the condition is true on the row, or on the pair of rows, and not unknown. Does not allocate.
pub fn holds(c: &BoundCond, first: &Row, second: Option<&Row>) -> bool
    requires wide { AreOfOneTable (pick_of first.now second) }
    requires sound { IsTrue (is_sound_cond (is_there (pick_of first.now second)) c.now) }
    ensures { result ≡ holds c.now (pick_of first.now second.entry) }
{
    is_true(truth(c, first, second))
}

/// Returns whether the row, or the pair of rows, satisfies all of the conditions. Does not allocate.
pub fn meets(conds: &[BoundCond], first: &Row, second: Option<&Row>) -> bool
    requires wide { AreOfOneTable (pick_of first.now second) }
    requires sound { IsTrue (list_all (is_sound_cond (is_there (pick_of first.now second)))
        conds.now) }
    ensures { result ≡ meets conds.now (pick_of first.now second.entry) }
{
    for c in conds {
        if !holds(c, first, second) {
            return false;
        }
    }
    true
}

// Returns the truth value of a disjunction, from the left, up to the first part that is true.
#[cycle(judge)]
fn any(a: &BoundAny, first: &Row, second: Option<&Row>) -> Option<bool>
    requires rows { AreRows (pick_of first.now second) }
    requires sound { IsSoundTest (pick_of first.now second) (formula_of_any a.now) }
    ensures { result ≡ truth_on (pick_of first.now second.entry) (formula_of_any a.now) }
{
    let mut found = all(&a.first, first, second);
    let rest = a.rest.as_slice();
    for next in rest {
        if is(found, true) {
            return Some(true);
        }
        let part = all(next, first, second);
        found = either(found, part);
    }
    found
}

// Returns the truth value of a conjunction, from the left, up to the first part that is false.
#[cycle(judge)]
fn all(a: &BoundAll, first: &Row, second: Option<&Row>) -> Option<bool>
    requires rows { AreRows (pick_of first.now second) }
    requires sound { IsSoundTest (pick_of first.now second) (formula_of_all a.now) }
    ensures { result ≡ truth_on (pick_of first.now second.entry) (formula_of_all a.now) }
{
    let mut found = one(&a.first, first, second);
    let rest = a.rest.as_slice();
    for next in rest {
        if is(found, false) {
            return Some(false);
        }
        let part = one(next, first, second);
        found = both(found, part);
    }
    found
}

// Returns the truth value of a condition.
#[cycle(judge)]
fn one(c: &BoundCond, first: &Row, second: Option<&Row>) -> Option<bool>
    requires rows { AreRows (pick_of first.now second) }
    requires sound { IsSoundTest (pick_of first.now second) (formula_of c.now) }
    ensures { result ≡ truth_on (pick_of first.now second.entry) (formula_of c.now) }
{
    let found = test(&c.pred, first, second);
    negated_if(c.not, found)
}

// Returns the truth value of a test. An area test applies to the first row.
#[cycle(judge)]
fn test(pred: &BoundPred, first: &Row, second: Option<&Row>) -> Option<bool>
    requires rows { AreRows (pick_of first.now second) }
    requires sound { IsSoundTest (pick_of first.now second) (formula_of_pred pred.now) }
    ensures { result ≡ truth_on (pick_of first.now second.entry) (formula_of_pred pred.now) }
{
    match pred {
        BoundPred::Bracket(inner) => any(inner.get(), first, second),
        BoundPred::Compare { left, op, right } => compare(left, *op, right, first, second),
        BoundPred::Between {
            not,
            value,
            low,
            high,
        } => between(*not, value, low, high, first, second),
        BoundPred::Among { not, value, list } => among(*not, value, list.as_slice(), first, second),
        BoundPred::IsNull { not, value } => is_null(*not, value, first, second),
        BoundPred::Area(area) => Some(area_holds(area, first.pos())),
    }
}
