//! The numbers of the rows that meet all conditions of a query.
//!
//! If a condition is an id test, its rows are found by their ids. Otherwise a kernel clears a mask of all rows by each
//! condition that is a vectorizable predicate, and the numbers of the remaining rows are listed in a selection vector.
//! Each other condition is evaluated on these rows alone, and removes those that do not meet it.
ghost use Rattle.std.specs.Prelude.{◌≡◌, ◌+◌, ◌<◌, ◌≤◌, ◌^◌, ℕ, Bool, All, IfOk, IsTrue, OnOk, Some, length, map, replicate, slice_get, take, true, false};
ghost use Rattle.std.specs.List.{filter, list_all};
ghost use Rattle.lane_filter.specs.Tests.{places_of};
ghost use Rattle.table_rules.specs.Objects.{IdsAscend};
ghost use Rattle.value_rules.specs.Formulas.{formula_of};
ghost use Rattle.value_rules.specs.Sound.{has_col, is_sound_cond};
ghost use Rattle.chunk_filter.specs.Asking.{holds_on};
ghost use Rattle.chunk_filter.specs.Selection.{IsNarrowed, IsNarrowedBy, AreDone, holds_at, meets_at, selection};
ghost use Rattle.table_rules.specs.declared.limits.TheConstants.{FIRST_COLUMNS};

use crate::id_test::rows_by_id;
use crate::kernel::keep_asked;
use crate::scratch::Scratch;
use crate::vectorized::vectorized;
use column_block::Block;
use column_eval::truths;
use lane_filter::picked;
use sky_io::Memory;
use sql_bound::BoundCond;

/// Returns the numbers of the rows of the block that meet all conditions, ascending, in a vector of the scratch. If a
/// condition is an id test, the other conditions are evaluated only on the rows that it finds, and what is used is a
/// number for each of them. Otherwise a flag and a number for each row are used. In both cases a flag for each
/// condition is, and what the evaluator needs.
pub fn selection(
    block: &Block,
    conds: &[BoundCond],
    scratch: &mut Scratch,
) -> Result<Vec<u32>, Memory>
    requires few { length block.now.objects < 2 ^ 32 }
    requires ascend { IdsAscend block.now.objects }
    requires sound { IsTrue (list_all
        (is_sound_cond (has_col (FIRST_COLUMNS + block.now.width) false))
        conds.now) }
    ensures value { IfOk result (λ places. places.items ≡ selection conds.now block.now.objects) }
    ensures there { IfOk result (λ places.
        All (λ place. place < length block.now.objects) places.items) }
{
    for i in 0..conds.len() {
        let cond = &conds[i];
        if let Some(found) = rows_by_id(block, cond, scratch)? {
            return among_found(block, conds, i, cond, found, scratch);
        }
    }
    by_kernels(block, conds, scratch)
}

/// Returns those of the found rows that meet all conditions. They are the rows on which the condition `c` holds, which
/// has the index i.
fn among_found(
    block: &Block,
    conds: &[BoundCond],
    i: usize,
    c: &BoundCond,
    found: Vec<u32>,
    scratch: &mut Scratch,
) -> Result<Vec<u32>, Memory>
    requires sound { IsTrue (list_all
        (is_sound_cond (has_col (FIRST_COLUMNS + block.now.width) false))
        conds.now) }
    requires there { i < length conds.now }
    requires at { slice_get conds.now i ≡ Some c.now }
    requires found { found.items
        ≡ places_of (map (holds_on (formula_of c.now)) block.now.objects) }
    ensures value { IfOk result (λ places. places.items ≡ selection conds.now block.now.objects) }
    ensures there { IfOk result (λ places.
        All (λ place. place < length block.now.objects) places.items) }
{
    let mut places = found;
    let mut done = scratch.flags.filled(false, conds.len())?;
    done[i] = true;
    keep_all(block, conds, done.as_slice(), &mut places, scratch)?;
    scratch.flags.give(done);
    Ok(places)
}

/// Returns the numbers of the rows that meet all conditions, of which those that are vectorizable predicates are
/// evaluated first.
#[tactic(auto, using(crate::proofs::Places::done_at_places, crate::proofs::Places::selection_places, crate::proofs::Places::there_places))]
fn by_kernels(block: &Block, conds: &[BoundCond], scratch: &mut Scratch) -> Result<Vec<u32>, Memory>
    requires few { length block.now.objects < 2 ^ 32 }
    requires sound { IsTrue (list_all
        (is_sound_cond (has_col (FIRST_COLUMNS + block.now.width) false))
        conds.now) }
    ensures value { IfOk result (λ places. places.items ≡ selection conds.now block.now.objects) }
    ensures there { IfOk result (λ places.
        All (λ place. place < length block.now.objects) places.items) }
{
    let mut mask = scratch.flags.filled(true, block.len())?;
    let done = narrow_all(block, conds, mask.as_mut_slice(), scratch)?;
    let mut places = places_in(mask.as_slice(), scratch)?;
    scratch.flags.give(mask);
    keep_all(block, conds, done.as_slice(), &mut places, scratch)?;
    scratch.flags.give(done);
    Ok(places)
}

/// Clears the mask by each condition that a kernel can evaluate. Returns for each condition whether it is completely
/// evaluated.
#[tactic(auto, using(crate::proofs::Narrowing::narrowed_none, crate::proofs::Narrowing::narrowed_more))]
fn narrow_all(
    block: &Block,
    conds: &[BoundCond],
    mask: &mut [bool],
    scratch: &mut Scratch,
) -> Result<Vec<bool>, Memory>
    requires all { mask.old ≡ replicate (length block.now.objects) true }
    requires sound { IsTrue (list_all
        (is_sound_cond (has_col (FIRST_COLUMNS + block.now.width) false))
        conds.now) }
    ensures narrowed { IfOk result (λ done.
        IsNarrowed conds.now block.now.objects done.items mask.new) }
    ensures count { IfOk result (λ done. length done.items ≡ length conds.now) }
    ensures len { length mask.new ≡ length mask.old }
{
    let mut done = scratch.flags.filled(false, conds.len())?;
    for i in 0..conds.len() {
        done[i] = narrow_by(block, &conds[i], mask);
    }
    Ok(done)
}

/// Clears the mask by the condition, if a kernel can evaluate it. Returns whether it is completely evaluated.
#[tactic(auto, using(crate::proofs::Narrowing::narrowed_by, crate::proofs::Narrowing::narrowed_not))]
fn narrow_by(block: &Block, c: &BoundCond, mask: &mut [bool]) -> bool
    requires rows { length block.now.objects ≡ length mask.old }
    requires sound { IsTrue (is_sound_cond (has_col (FIRST_COLUMNS + block.now.width) false)
        c.now) }
    ensures { IsNarrowedBy c.now block.now.objects result mask.old mask.new }
{
    match vectorized(c) {
        None => false,
        Some(vectorized) => {
            keep_asked(block, vectorized.test, mask);
            vectorized.whole
        },
    }
}

/// Returns the numbers of the rows on which the mask is true, ascending.
fn places_in(mask: &[bool], scratch: &mut Scratch) -> Result<Vec<u32>, Memory>
    requires { length mask.now < 2 ^ 32 }
    ensures { IfOk result (λ places. places.items ≡ places_of mask.now) }
{
    let mut places = scratch.places.sized(0, mask.len())?;
    let count = picked(mask, places.as_mut_slice());
    places.truncate(count);
    Ok(places)
}

/// Removes the rows that do not meet some condition that is not completely evaluated.
#[tactic(auto, using(crate::proofs::Places::rest_step, crate::proofs::Places::rest_end, crate::proofs::Places::done_rest))]
fn keep_all(
    block: &Block,
    conds: &[BoundCond],
    done: &[bool],
    places: &mut Vec<u32>,
    scratch: &mut Scratch,
) -> Result<(), Memory>
    requires count { length done.now ≡ length conds.now }
    requires there { All (λ place. place < length block.now.objects) places.old.items }
    requires sound { IsTrue (list_all
        (is_sound_cond (has_col (FIRST_COLUMNS + block.now.width) false))
        conds.now) }
    requires done { AreDone conds.now block.now.objects done.now places.old.items }
    ensures { OnOk result (places.new.items
        ≡ filter (meets_at conds.now block.now.objects) places.old.items) }
{
    for i in 0..conds.len() {
        keep_unless(done[i], block, &conds[i], places, scratch)?;
    }
    Ok(())
}

/// Removes the rows that do not meet the condition. If it is completely evaluated, there are none.
#[tactic(auto, using(crate::proofs::Places::all_stay))]
fn keep_unless(
    done: bool,
    block: &Block,
    c: &BoundCond,
    places: &mut Vec<u32>,
    scratch: &mut Scratch,
) -> Result<(), Memory>
    requires there { All (λ place. place < length block.now.objects) places.old.items }
    requires sound { IsTrue (is_sound_cond (has_col (FIRST_COLUMNS + block.now.width) false)
        c.now) }
    requires done { done ≡ true
        → All (λ k. holds_at c.now block.now.objects k ≡ true) places.old.items }
    ensures { OnOk result (places.new.items
        ≡ filter (holds_at c.now block.now.objects) places.old.items) }
{
    if done {
        Ok(())
    } else {
        keep_holding(block, c, places, scratch)
    }
}

/// Removes the rows that do not meet the condition. After `Err` nothing has changed.
#[tactic(auto, using(crate::proofs::Places::held))]
fn keep_holding(
    block: &Block,
    c: &BoundCond,
    places: &mut Vec<u32>,
    scratch: &mut Scratch,
) -> Result<(), Memory>
    requires there { All (λ place. place < length block.now.objects) places.old.items }
    requires sound { IsTrue (is_sound_cond (has_col (FIRST_COLUMNS + block.now.width) false)
        c.now) }
    ensures { OnOk result (places.new.items
        ≡ filter (holds_at c.now block.now.objects) places.old.items) }
{
    let found = truths(block, c, places.as_slice(), &mut scratch.columns)?;
    keep_true(places, found.holds());
    found.give_back(&mut scratch.columns);
    Ok(())
}

/// Keeps the row numbers at the positions at which the mask is true, in their order. Does not allocate.
fn keep_true(places: &mut Vec<u32>, mask: &[bool])
    requires { length mask.now ≡ length places.old.items }
    ensures { (test : ℕ → Bool) → mask.now ≡ map test places.old.items
        → places.new.items ≡ filter test places.old.items }
{
    let count = to_front(places.as_mut_slice(), mask);
    places.truncate(count);
}

/// Moves the row numbers at the positions at which the mask is true to the beginning, in their order. Returns how many
/// there are.
fn to_front(places: &mut [u32], mask: &[bool]) -> usize
    requires { length mask.now ≡ length places.old }
    ensures value { (test : ℕ → Bool) → mask.now ≡ map test places.old
        → take result places.new ≡ filter test places.old }
    ensures most { result ≤ length mask.now }
    ensures len { length places.new ≡ length places.old }
{
    let mut count = 0usize;
    for i in 0..mask.len() {
        places[count] = places[i];
        count += usize::from(mask[i]);
    }
    count
}
