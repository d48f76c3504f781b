//! The truth values of tests, a column at a time.
ghost use Rattle.std.specs.Prelude.{◌≡◌, ◌+◌, ◌<◌, ◌≤◌, [], IfOk, IsTrue, All, length, get_or, pos, vec_capacity};
ghost use Rattle.sql_tree.specs.declared.cond.Cmp.TheVariants.{AtMost};
ghost use Rattle.table_rules.specs.Objects.{IsRow};
ghost use Rattle.value_rules.specs.Formulas.{Among, And, Compares, IsNull, negated_if};
ghost use Rattle.value_rules.specs.Terms.{term_of};
ghost use Rattle.value_rules.specs.Truth.{compares, is_one_of};
ghost use Rattle.column_vectors.specs.Flags.{AreCompared, AreFlags};
ghost use Rattle.column_vectors.specs.Lanes.{numbers_of};
ghost use Rattle.column_vectors.specs.Masks.{IsMask};
ghost use Rattle.column_eval.specs.Seen.{IsSoundFor};

use crate::expr::sum;
use crate::picked::Picked;
use column_vectors::Scratch;
use column_vectors::flags::{Flags, flags_of, joined_by_and, negated_if};
use column_vectors::lane::Lane;
use column_vectors::leaf::repeated;
use column_vectors::mask::{both, copied};
use column_vectors::numbers::Numbers;
use expr_eval::mirrored;
use lane_filter::keep;
use sky_io::Memory;
use sql_bound::{BoundExpr, Cmp};

/// Returns the flags of a comparison.
pub(crate) fn compare(
    left: &BoundExpr,
    op: Cmp,
    right: &BoundExpr,
    rows: &Picked<'_>,
    scratch: &mut Scratch,
) -> Result<Flags, Memory>
    requires rows { All IsRow rows.now.objects }
    requires left { IsSoundFor rows.now (term_of left.now) }
    requires right { IsSoundFor rows.now (term_of right.now) }
    ensures { IfOk result (AreFlags rows.now.objects
        (Compares op (term_of left.now) (term_of right.now))) }
{
    let left = sum(left, rows, scratch)?;
    let right = sum(right, rows, scratch)?;
    let flags = compared(op, &left, &right, scratch)?;
    left.give_back(scratch);
    right.give_back(scratch);
    Ok(flags)
}

/// Returns the flags of BETWEEN, or with `negated` of NOT BETWEEN.
pub(crate) fn between(
    negated: bool,
    value: &BoundExpr,
    low: &BoundExpr,
    high: &BoundExpr,
    rows: &Picked<'_>,
    scratch: &mut Scratch,
) -> Result<Flags, Memory>
    requires rows { All IsRow rows.now.objects }
    requires value { IsSoundFor rows.now (term_of value.now) }
    requires low { IsSoundFor rows.now (term_of low.now) }
    requires high { IsSoundFor rows.now (term_of high.now) }
    ensures { IfOk result (AreFlags rows.now.objects (negated_if negated
        (And (Compares AtMost (term_of low.now) (term_of value.now))
        (Compares AtMost (term_of value.now) (term_of high.now))))) }
{
    let value = sum(value, rows, scratch)?;
    let low = sum(low, rows, scratch)?;
    let high = sum(high, rows, scratch)?;
    let above = compared(Cmp::AtMost, &low, &value, scratch)?;
    let below = compared(Cmp::AtMost, &value, &high, scratch)?;
    value.give_back(scratch);
    low.give_back(scratch);
    high.give_back(scratch);
    let within = joined_by_and(above, below, scratch);
    Ok(negated_if(negated, within))
}

/// Returns the flags of IN, or with `negated` of NOT IN.
pub(crate) fn among(
    negated: bool,
    value: &BoundExpr,
    list: &[i64],
    rows: &Picked<'_>,
    scratch: &mut Scratch,
) -> Result<Flags, Memory>
    requires rows { All IsRow rows.now.objects }
    requires value { IsSoundFor rows.now (term_of value.now) }
    ensures { IfOk result (AreFlags rows.now.objects
        (negated_if negated (Among (term_of value.now) list.now))) }
{
    let lane = sum(value, rows, scratch)?;
    let found = found_in(list, &lane.numbers, scratch.flags.take(lane.numbers.len())?);
    let Lane { numbers, known, .. } = lane;
    numbers.give_back(scratch);
    Ok(negated_if(negated, flags_of(known, found)))
}

/// Returns the flags of IS NULL, or with `negated` of IS NOT NULL.
pub(crate) fn is_null(
    negated: bool,
    value: &BoundExpr,
    rows: &Picked<'_>,
    scratch: &mut Scratch,
) -> Result<Flags, Memory>
    requires rows { All IsRow rows.now.objects }
    requires value { IsSoundFor rows.now (term_of value.now) }
    ensures { IfOk result (AreFlags rows.now.objects
        (negated_if negated (IsNull (term_of value.now)))) }
{
    let lane = sum(value, rows, scratch)?;
    let all = repeated(true, rows.len(), scratch.flags.take(rows.len())?);
    let Lane { numbers, known, .. } = lane;
    numbers.give_back(scratch);
    Ok(negated_if(!negated, flags_of(all, known)))
}

// Returns the flags of a comparison of two column vectors, which is unknown at each row at which one of them is NULL.
fn compared(op: Cmp, left: &Lane, right: &Lane, scratch: &mut Scratch) -> Result<Flags, Memory>
    requires numbers { length (numbers_of right.now.numbers)
        ≡ length (numbers_of left.now.numbers) }
    requires masked { length left.now.known.items ≡ length (numbers_of left.now.numbers) }
    requires masks { length right.now.known.items ≡ length left.now.known.items }
    ensures { IfOk result (AreCompared op left.now right.now) }
{
    let count = left.numbers.len();
    let mut known = copied(left.known.as_slice(), scratch.flags.take(count)?);
    both(known.as_mut_slice(), right.known.as_slice());
    let truth = truths_of(
        op,
        &left.numbers,
        &right.numbers,
        scratch.flags.take(count)?,
    );
    Ok(flags_of(known, truth))
}

// Compares the numbers of the left with those of the right. `found` is an empty mask that has room for the results.
#[tactic(auto, using(crate::proofs::Mirrored::mirrored_numbers))]
fn truths_of(op: Cmp, left: &Numbers, right: &Numbers, found: Vec<bool>) -> Vec<bool>
    requires count { length (numbers_of right.now) ≡ length (numbers_of left.now) }
    requires empty { found.items ≡ [] }
    requires room { length (numbers_of left.now) ≤ vec_capacity found }
    ensures { IsMask (length (numbers_of left.now))
        (λ k. compares op (get_or (numbers_of left.now) k (pos 0))
        (get_or (numbers_of right.now) k (pos 0))) result.items }
{
    match (left, right) {
        (Numbers::Narrow(left), Numbers::Narrow(right)) => {
            truths_of_narrow(op, left.as_slice(), right.as_slice(), found)
        },
        (Numbers::Narrow(left), Numbers::Same(n, _)) => truths_with(op, left.as_slice(), *n, found),
        (Numbers::Same(n, _), Numbers::Narrow(right)) => {
            truths_with(mirrored(op), right.as_slice(), *n, found)
        },
        _ => truths_of_wide(op, left, right, found),
    }
}

// Compares numbers of 64 bits. Each comparison has a loop of its own: with a choice among them in each iteration, the
// loop would not become vector code.
fn truths_of_narrow(op: Cmp, left: &[i64], right: &[i64], found: Vec<bool>) -> Vec<bool>
    requires count { length right.now ≡ length left.now }
    requires empty { found.items ≡ [] }
    requires room { length left.now ≤ vec_capacity found }
    ensures { IsMask (length left.now)
        (λ k. compares op (get_or left.now k (pos 0)) (get_or right.now k (pos 0))) result.items }
{
    match op {
        Cmp::Equal => truths_by(Cmp::Equal, left, right, found),
        Cmp::Differs => truths_by(Cmp::Differs, left, right, found),
        Cmp::Less => truths_by(Cmp::Less, left, right, found),
        Cmp::AtMost => truths_by(Cmp::AtMost, left, right, found),
        Cmp::More => truths_by(Cmp::More, left, right, found),
        Cmp::AtLeast => truths_by(Cmp::AtLeast, left, right, found),
    }
}

// Compares numbers of 64 bits, by a comparison that is a constant where this call is inlined.
#[inline(always)]
fn truths_by(op: Cmp, left: &[i64], right: &[i64], found: Vec<bool>) -> Vec<bool>
    requires count { length right.now ≡ length left.now }
    requires empty { found.items ≡ [] }
    requires room { length left.now ≤ vec_capacity found }
    ensures { IsMask (length left.now)
        (λ k. compares op (get_or left.now k (pos 0)) (get_or right.now k (pos 0))) result.items }
{
    let mut found = found;
    for i in 0..left.len() {
        found.push_reserved(compares(op, i128::from(left[i]), i128::from(right[i])));
    }
    found
}

// Compares numbers of 64 bits with one number.
fn truths_with(op: Cmp, values: &[i64], n: i64, found: Vec<bool>) -> Vec<bool>
    requires empty { found.items ≡ [] }
    requires room { length values.now ≤ vec_capacity found }
    ensures { IsMask (length values.now) (λ k. compares op (get_or values.now k (pos 0)) n)
        result.items }
{
    let mut found = repeated(true, values.len(), found);
    keep(values, op, n, found.as_mut_slice());
    found
}

// Compares numbers of which some are wider than 64 bits.
fn truths_of_wide(op: Cmp, left: &Numbers, right: &Numbers, found: Vec<bool>) -> Vec<bool>
    requires count { length (numbers_of right.now) ≡ length (numbers_of left.now) }
    requires empty { found.items ≡ [] }
    requires room { length (numbers_of left.now) ≤ vec_capacity found }
    ensures { IsMask (length (numbers_of left.now))
        (λ k. compares op (get_or (numbers_of left.now) k (pos 0))
        (get_or (numbers_of right.now) k (pos 0))) result.items }
{
    let mut found = found;
    for i in 0..left.len() {
        found.push_reserved(compares(op, left.get(i), right.get(i)));
    }
    found
}

// Returns whether the comparison is true of the two numbers.
#[inline(always)]
fn compares(op: Cmp, a: i128, b: i128) -> bool
    ensures { result ≡ compares op a b }
{
    match op {
        Cmp::Equal => a == b,
        Cmp::Differs => a != b,
        Cmp::Less => a < b,
        Cmp::AtMost => a <= b,
        Cmp::More => a > b,
        Cmp::AtLeast => a >= b,
    }
}

// Returns which of the numbers are in the list. `found` is an empty mask that has room for the results.
fn found_in(list: &[i64], numbers: &Numbers, found: Vec<bool>) -> Vec<bool>
    requires empty { found.items ≡ [] }
    requires room { length (numbers_of numbers.now) ≤ vec_capacity found }
    ensures { IsMask (length (numbers_of numbers.now))
        (λ k. is_one_of list.now (get_or (numbers_of numbers.now) k (pos 0))) result.items }
{
    let mut found = found;
    for i in 0..numbers.len() {
        found.push_reserved(is_one_of(list, numbers.get(i)));
    }
    found
}

// Returns whether the number is in the list.
fn is_one_of(list: &[i64], a: i128) -> bool
    ensures { result ≡ is_one_of list.now a }
{
    list.iter().any(|n| i128::from(*n) == a)
}
