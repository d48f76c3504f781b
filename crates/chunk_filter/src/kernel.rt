//! The kernels: each evaluates a predicate on all rows of a block at once.
ghost use Rattle.std.specs.Prelude.{◌≡◌, ◌+◌, ◌<◌, ◌≤◌, false, length, get_or, is_none, is_some, not, None};
ghost use Rattle.lane_filter.specs.Tests.{IsKeptBy};
ghost use Rattle.sky_row.specs.Columns.{no_row};
ghost use Rattle.table_rules.specs.Objects.{cell};
ghost use Rattle.chunk_filter.specs.Asking.{IsThere, asks, is_compared, is_in_range};
ghost use Rattle.table_rules.specs.declared.limits.TheConstants.{FIRST_COLUMNS};

use crate::narrow::narrow;
use crate::predicate::Predicate;
use column_block::Block;
use lane_filter::{keep, keep_between, keep_between_narrow, keep_narrow, keep_near, keep_present};
use sky_row::Column;
use sql_tree::Cmp;
use table_rules::limits::FIRST_COLUMNS;

/// Clears the mask on each row on which the predicate does not hold. Does not allocate.
pub(crate) fn keep_asked(block: &Block, test: Predicate, mask: &mut [bool])
    requires rows { length block.now.objects ≡ length mask.old }
    requires there { IsThere (FIRST_COLUMNS + block.now.width) test }
    ensures len { length mask.new ≡ length mask.old }
    ensures each { IsKeptBy (λ k. asks test (get_or block.now.objects k no_row)) mask.old mask.new }
{
    // the contract of `len` says what holds of each row
    let _ = block.len();
    match test {
        Predicate::Compare { col, op, n } => keep_compared(block, col, op, n, mask),
        Predicate::Range { col, low, high } => keep_range(block, col, low, high, mask),
        Predicate::Present { col } => keep_there(block, col, mask),
        Predicate::Absent { col } => keep_missing(block, col, mask),
        Predicate::Near { centre, n } => {
            keep_near(block.xs(), block.ys(), block.zs(), &centre, n.get(), mask)
        },
    }
}

/// Keeps the rows whose value in the column compares so with n.
#[tactic(auto, using(crate::proofs::Kernels::column_told))]
fn keep_compared(block: &Block, col: u32, op: Cmp, n: i64, mask: &mut [bool])
    requires rows { length block.now.objects ≡ length mask.old }
    requires there { col < FIRST_COLUMNS + block.now.width }
    ensures len { length mask.new ≡ length mask.old }
    ensures each { IsKeptBy (λ k. is_compared op n (cell (get_or block.now.objects k no_row) col))
        mask.old mask.new }
{
    match col {
        0 => keep(block.ids(), op, n, mask),
        1 => keep_narrow(block.xs(), op, narrow(n), mask),
        2 => keep_narrow(block.ys(), op, narrow(n), mask),
        3 => keep_narrow(block.zs(), op, narrow(n), mask),
        _ => keep_compared_further(block.further(col), op, n, mask),
    }
}

/// Keeps the rows whose value in the extra column compares so with n. NULL is stored as 0.
#[tactic(auto, using(crate::proofs::Kernels::further_compared))]
fn keep_compared_further(column: &Column, op: Cmp, n: i64, mask: &mut [bool])
    requires rows { length column.now ≡ length mask.old }
    ensures len { length mask.new ≡ length mask.old }
    ensures each { IsKeptBy (λ k. is_compared op n (get_or column.now k None)) mask.old mask.new }
{
    keep(column.values(), op, n, mask);
    keep_valued(column, mask);
}

/// Keeps the rows whose value in the column is from `low` to `high`.
#[tactic(auto, using(crate::proofs::Kernels::column_told))]
fn keep_range(block: &Block, col: u32, low: i64, high: i64, mask: &mut [bool])
    requires rows { length block.now.objects ≡ length mask.old }
    requires there { col < FIRST_COLUMNS + block.now.width }
    ensures len { length mask.new ≡ length mask.old }
    ensures each { IsKeptBy
        (λ k. is_in_range low high (cell (get_or block.now.objects k no_row) col)) mask.old mask.new }
{
    match col {
        0 => keep_between(block.ids(), low, high, mask),
        1 => keep_between_narrow(block.xs(), narrow(low), narrow(high), mask),
        2 => keep_between_narrow(block.ys(), narrow(low), narrow(high), mask),
        3 => keep_between_narrow(block.zs(), narrow(low), narrow(high), mask),
        _ => keep_range_further(block.further(col), low, high, mask),
    }
}

/// Keeps the rows whose value in the extra column is from `low` to `high`.
#[tactic(auto, using(crate::proofs::Kernels::further_ranged))]
fn keep_range_further(column: &Column, low: i64, high: i64, mask: &mut [bool])
    requires rows { length column.now ≡ length mask.old }
    ensures len { length mask.new ≡ length mask.old }
    ensures each { IsKeptBy (λ k. is_in_range low high (get_or column.now k None))
        mask.old mask.new }
{
    keep_between(column.values(), low, high, mask);
    keep_valued(column, mask);
}

/// Keeps the rows whose value in the column is not NULL. The first four columns have no NULL.
#[tactic(auto, using(crate::proofs::Kernels::column_told, crate::proofs::Kernels::first_valued))]
fn keep_there(block: &Block, col: u32, mask: &mut [bool])
    requires rows { length block.now.objects ≡ length mask.old }
    requires there { col < FIRST_COLUMNS + block.now.width }
    ensures len { length mask.new ≡ length mask.old }
    ensures each { IsKeptBy (λ k. is_some (cell (get_or block.now.objects k no_row) col))
        mask.old mask.new }
{
    if col >= 4 {
        keep_valued(block.further(col), mask);
    }
}

/// Keeps the rows whose value in the extra column is not NULL.
#[tactic(auto, using(crate::proofs::Kernels::all_valued, crate::proofs::Kernels::valued_there))]
fn keep_valued(column: &Column, mask: &mut [bool])
    requires rows { length column.now ≡ length mask.old }
    ensures len { length mask.new ≡ length mask.old }
    ensures each { IsKeptBy (λ k. is_some (get_or column.now k None)) mask.old mask.new }
{
    if let Some(present) = column.present() {
        keep_present(present, mask);
    }
}

/// Keeps the rows whose value in the column is NULL.
#[tactic(auto, using(crate::proofs::Kernels::column_told, crate::proofs::Kernels::first_missing))]
fn keep_missing(block: &Block, col: u32, mask: &mut [bool])
    requires rows { length block.now.objects ≡ length mask.old }
    requires there { col < FIRST_COLUMNS + block.now.width }
    ensures len { length mask.new ≡ length mask.old }
    ensures each { IsKeptBy (λ k. is_none (cell (get_or block.now.objects k no_row) col))
        mask.old mask.new }
{
    if col < FIRST_COLUMNS as u32 {
        clear(mask);
    } else {
        keep_null(block.further(col), mask);
    }
}

/// Keeps the rows whose value in the extra column is NULL.
#[tactic(auto, using(crate::proofs::Kernels::none_missing, crate::proofs::Kernels::missing_there))]
fn keep_null(column: &Column, mask: &mut [bool])
    requires rows { length column.now ≡ length mask.old }
    ensures len { length mask.new ≡ length mask.old }
    ensures each { IsKeptBy (λ k. is_none (get_or column.now k None)) mask.old mask.new }
{
    match column.present() {
        None => clear(mask),
        Some(present) => keep_absent(present, mask),
    }
}

/// Clears the whole mask.
#[tactic(auto, using(crate::proofs::Kernels::cleared))]
fn clear(mask: &mut [bool])
    ensures len { length mask.new ≡ length mask.old }
    ensures each { IsKeptBy (λ k. false) mask.old mask.new }
{
    for i in 0..mask.len() {
        mask[i] = false;
    }
}

/// Keeps the rows whose value is NULL.
fn keep_absent(present: &[bool], mask: &mut [bool])
    requires { length present.now ≡ length mask.old }
    ensures len { length mask.new ≡ length mask.old }
    ensures each { IsKeptBy (λ k. not (get_or present.now k false)) mask.old mask.new }
{
    for i in 0..present.len() {
        mask[i] = mask[i] & !present[i];
    }
}
