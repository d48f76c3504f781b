//! The table of the groups with the most rows: of rows that are counted in a table of counts, only groups that can be
//! among the first n are made.

ghost use Rattle.std.specs.Prelude.{◌≡◌, ◌++◌, ◌<◌, ◌≤◌, ◌≤ℤ◌, ◌^◌, [], All, Err, false, IfErr, IfOk, IfSome, length, Ok, pos, slice_get, Some, unwrap_or};
ghost use Rattle.std.specs.Bool.{OnTrue};
ghost use Rattle.answer_rules.specs.Finish.{groups_merged, merged_groups};
ghost use Rattle.answer_rules.specs.Gather.{gather};
ghost use Rattle.answer_rules.specs.Keys.{key_order};
ghost use Rattle.answer_rules.specs.Parts.{add_own_sums};
ghost use Rattle.answer_rules.specs.Rows.{limit_of};
ghost use Rattle.partial_groups.specs.declared.counting.TheConstants.{COUNTS_MOST};
ghost use Rattle.partial_groups.specs.Counts.{numbers_counted};
ghost use Rattle.partial_groups.specs.Groups.{MayGather};
ghost use Rattle.partial_groups.specs.Merging.{MayMerge};
ghost use Rattle.partial_groups.specs.Pruning.{CountsRows, IsByRowCount, IsRowCount, group_count, counts_before};
ghost use Rattle.partial_groups.specs.Ungrouped.{row_groups, values_in};
ghost use Rattle.sky_io.specs.Stops.{IfBad};

use crate::aggregation_table::AggregationTable;
use crate::counting::{counted_in, grouped, number_at, width};
use crate::cutoff::{Cutoff, count_before, cutoff_for, groups_before};
use crate::number_lists::{Bounds, number_count};
use crate::row_runs::put_rows;
use answer_rules::{MergeItem, MergeKey, MergePlan, TotalOut};
use answer_table::Table;
use sky_io::{Memory, Stop};
use sql_bound::ColList;
use std::alloc::Global;

/// Returns true only if the item is the number of rows of each group of counted rows.
fn counts_rows(counted: &[bool], item: &MergeItem) -> bool
    ensures { OnTrue result (CountsRows counted.now item.now) }
{
    match item {
        MergeItem::Count(n) => counts_at(counted, *n),
        _ => false,
    }
}

/// Returns whether the aggregate at the position counts the rows.
fn counts_at(counted: &[bool], n: usize) -> bool
    ensures { result ≡ unwrap_or (slice_get counted.now n) false }
{
    match counted.get(n) {
        None => false,
        Some(counts) => *counts,
    }
}

/// Returns true only if groups of counted rows are ordered by the number of their rows.
fn is_row_count(counted: &[bool], items: &[MergeItem], key: MergeKey) -> bool
    ensures { OnTrue result (IsRowCount counted.now items.now key) }
{
    match key {
        MergeKey::ChunkKey => false,
        MergeKey::Key(_) => false,
        MergeKey::Item(position) => match items.get(position) {
            None => false,
            Some(item) => counts_rows(counted, item),
        },
    }
}

/// Returns true only if the merge puts groups with more rows before those with fewer.
fn is_by_row_count(counted: &[bool], merge: &MergePlan) -> bool
    ensures { OnTrue result (IsByRowCount counted.now merge.now) }
{
    match &merge.order {
        None => false,
        Some(order) => if order.down {
            is_row_count(counted, merge.items.as_slice(), order.key)
        } else {
            false
        },
    }
}

/// Returns the limit of a merge that puts groups with more rows before those with fewer.
fn frequent_limit(counted: &[bool], keys: &ColList, merge: &MergePlan) -> Option<usize>
    ensures keyed { IfSome result (λ n. 0 < length keys.now) }
    ensures by { IfSome result (λ n. IsByRowCount counted.now merge.now) }
    ensures limit { IfSome result (λ n. limit_of merge.now.limit ≡ Some n) }
{
    if keys.len() == 0 {
        return None;
    }
    if !is_by_row_count(counted, merge) {
        return None;
    }
    let n = merge.limit?.get().unsigned_abs() as usize;
    Some(n)
}

/// Returns a cutoff before which there are n groups.
fn cutoff_after(counts: &[u32], n: usize) -> Option<Cutoff>
    ensures { IfSome result (λ c. n ≤ group_count (counts_before c 0 counts.now)) }
{
    let cutoff = cutoff_for(counts, n)?;
    if groups_before(cutoff, counts) < n {
        None
    } else {
        Some(cutoff)
    }
}

/// Returns the groups before the cutoff, of rows whose numbers are counted in a table.
fn table_before(
    alloc: Global,
    counted: &[bool],
    least: i64,
    counts: &[u32],
    cutoff: Cutoff,
) -> Result<AggregationTable, Memory>
    requires low { least ≤ℤ pos (2 ^ 62) }
    requires short { length counts.now ≤ COUNTS_MOST }
    requires alike { MayGather [] (row_groups counted.now
        (numbers_counted least (counts_before cutoff 0 counts.now) (length counts.now))) }
    ensures { IfOk result (λ table. table ≡ gather key_order add_own_sums (row_groups counted.now
        (numbers_counted least (counts_before cutoff 0 counts.now) (length counts.now)))) }
{
    let mut table = AggregationTable::empty(alloc);
    let mut states = Vec::new(alloc);
    for i in 0..counts.len() {
        let value = number_at(least, i);
        let count = count_before(cutoff, counts[i], i);
        put_rows(&mut table, &mut states, counted, value, count)?;
    }
    Ok(table)
}

/// Returns the table of the groups of rows whose numbers are counted in a table, if the first groups of the answer are
/// those with the most rows. Makes only groups that can be among them. Returns `None` if the merge has another order, no
/// limit, or a limit above the number of groups.
fn frequent_table(
    alloc: Global,
    counted: &[bool],
    least: i64,
    counts: &[u32],
    keys: &ColList,
    merge: &MergePlan,
) -> Result<Option<Table>, Stop<TotalOut>>
    requires low { least ≤ℤ pos (2 ^ 62) }
    requires short { length counts.now ≤ COUNTS_MOST }
    requires alike { MayGather [] (row_groups counted.now
        (numbers_counted least counts.now (length counts.now))) }
    requires may { All (λ g. All (MayMerge keys.now g) merge.now.items)
        (groups_merged keys.now (gather key_order add_own_sums
        (row_groups counted.now (numbers_counted least counts.now (length counts.now))))) }
    ensures ok { IfOk result (λ made. IfSome made (λ table.
        merged_groups keys.now merge.now (groups_merged keys.now (gather key_order add_own_sums
        (row_groups counted.now (numbers_counted least counts.now (length counts.now))))) ≡ Ok table)) }
    ensures out { IfErr result (λ stop. IfBad stop (λ out.
        merged_groups keys.now merge.now (groups_merged keys.now (gather key_order add_own_sums
        (row_groups counted.now (numbers_counted least counts.now (length counts.now))))) ≡ Err out.total)) }
{
    let Some(n) = frequent_limit(counted, keys, merge) else {
        return Ok(None);
    };
    let Some(cutoff) = cutoff_after(counts, n) else {
        return Ok(None);
    };
    let table = table_before(alloc, counted, least, counts, cutoff)?;
    Ok(Some(table.finish(alloc, keys, merge)?))
}

/// Returns the table of the groups of rows whose keys are the numbers of these lists, if the numbers are near one another
/// and the first groups of the answer are those with the most rows. Makes only groups that can be among them.
fn frequent_of(
    alloc: Global,
    counted: &[bool],
    lists: &[Vec<i64>],
    bounds: Bounds,
    keys: &ColList,
    merge: &MergePlan,
) -> Result<Option<Table>, Stop<TotalOut>>
    requires alike { MayGather [] (row_groups counted.now (values_in lists.now)) }
    requires may { All (λ g. All (MayMerge keys.now g) merge.now.items)
        (groups_merged keys.now (gather key_order add_own_sums
        (row_groups counted.now (values_in lists.now)))) }
    ensures ok { IfOk result (λ made. IfSome made (λ table.
        merged_groups keys.now merge.now (groups_merged keys.now (gather key_order add_own_sums
        (row_groups counted.now (values_in lists.now)))) ≡ Ok table)) }
    ensures out { IfErr result (λ stop. IfBad stop (λ out.
        merged_groups keys.now merge.now (groups_merged keys.now (gather key_order add_own_sums
        (row_groups counted.now (values_in lists.now)))) ≡ Err out.total)) }
{
    if frequent_limit(counted, keys, merge).is_none() {
        return Ok(None);
    }
    let Some(width) = width(bounds, number_count(lists)) else {
        return Ok(None);
    };
    let Some(counts) = counted_in(alloc, lists, bounds.least, width) else {
        return Ok(None);
    };
    frequent_table(alloc, counted, bounds.least, counts.as_slice(), keys, merge)
}

/// Returns the table of these groups and of the rows whose keys are the numbers of these lists. Makes all groups.
pub(crate) fn whole_table(
    alloc: Global,
    groups: AggregationTable,
    counted: &Vec<bool>,
    lists: Vec<Vec<i64>>,
    bounds: Bounds,
    keys: &ColList,
    merge: &MergePlan,
) -> Result<Table, Stop<TotalOut>>
    requires alike { MayGather groups (row_groups counted.now.items (values_in lists.items)) }
    requires may { All (λ g. All (MayMerge keys.now g) merge.now.items)
        (groups_merged keys.now (gather key_order add_own_sums
        (groups ++ row_groups counted.now.items (values_in lists.items)))) }
    ensures ok { IfOk result (λ table.
        merged_groups keys.now merge.now (groups_merged keys.now (gather key_order add_own_sums
        (groups ++ row_groups counted.now.items (values_in lists.items)))) ≡ Ok table) }
    ensures out { IfErr result (λ stop. IfBad stop (λ out.
        merged_groups keys.now merge.now (groups_merged keys.now (gather key_order add_own_sums
        (groups ++ row_groups counted.now.items (values_in lists.items)))) ≡ Err out.total)) }
{
    let whole = grouped(alloc, groups, counted.as_slice(), lists, bounds)?;
    whole.finish(alloc, keys, merge)
}

/// Returns the table of the rows whose keys are the numbers of these lists, if there are no other groups. Makes only
/// groups that can be among the first of the answer, if a cutoff is found.
pub(crate) fn rows_table(
    alloc: Global,
    groups: AggregationTable,
    counted: &Vec<bool>,
    lists: Vec<Vec<i64>>,
    bounds: Bounds,
    keys: &ColList,
    merge: &MergePlan,
) -> Result<Table, Stop<TotalOut>>
    requires none { groups ≡ [] }
    requires alike { MayGather groups (row_groups counted.now.items (values_in lists.items)) }
    requires may { All (λ g. All (MayMerge keys.now g) merge.now.items)
        (groups_merged keys.now (gather key_order add_own_sums
        (groups ++ row_groups counted.now.items (values_in lists.items)))) }
    ensures ok { IfOk result (λ table.
        merged_groups keys.now merge.now (groups_merged keys.now (gather key_order add_own_sums
        (groups ++ row_groups counted.now.items (values_in lists.items)))) ≡ Ok table) }
    ensures out { IfErr result (λ stop. IfBad stop (λ out.
        merged_groups keys.now merge.now (groups_merged keys.now (gather key_order add_own_sums
        (groups ++ row_groups counted.now.items (values_in lists.items)))) ≡ Err out.total)) }
{
    let made = frequent_of(
        alloc,
        counted.as_slice(),
        lists.as_slice(),
        bounds,
        keys,
        merge,
    )?;
    match made {
        Some(table) => Ok(table),
        None => whole_table(alloc, groups, counted, lists, bounds, keys, merge),
    }
}
