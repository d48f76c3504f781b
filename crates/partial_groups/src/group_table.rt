//! The table of groups: their totals are checked, their lines are sorted, and the items of the first lines are merged.

ghost use Rattle.std.specs.Prelude.{◌≡◌, ◌++◌, ◌<◌, All, Err, IfErr, IfOk, IfSome, length, map, Ok, OnOk, Some};
ghost use Rattle.std.specs.List.{flat_map};
ghost use Rattle.answer_rules.specs.Finish.{merged_groups, merged_line};
ghost use Rattle.answer_rules.specs.Gather.{Rise};
ghost use Rattle.answer_rules.specs.Groups.{group_order};
ghost use Rattle.answer_rules.specs.InOrder.{first, in_order};
ghost use Rattle.answer_rules.specs.Keeps.{AreApart};
ghost use Rattle.answer_rules.specs.Keys.{key_order};
ghost use Rattle.answer_rules.specs.Rows.{limit_of};
ghost use Rattle.partial_groups.specs.Groups.{IsThere, group_of};
ghost use Rattle.partial_groups.specs.Lines.{group_values, line_of, line_values};
ghost use Rattle.partial_groups.specs.Merging.{IsMergeable, MayMerge};
ghost use Rattle.answer_table.specs.Tables.{IsShort};
ghost use Rattle.sky_io.specs.Stops.{IfBad};

use crate::group_entry::GroupEntry;
use crate::line::Line;
use crate::lines::lines;
use crate::merged::merged;
use crate::tally::Tally;
use crate::totals::first_out;
use answer_rules::{MergeItem, MergePlan, TotalOut, Value};
use answer_table::lists::cut;
use answer_table::values::{put, values_room};
use answer_table::{Table, TableValue};
use sky_io::{Memory, Stop};
use sql_bound::{ColList, Int};
use std::alloc::Global;

/// Returns the value as one of a table.
fn table_value(value: Value) -> TableValue
    requires { IsShort value }
    ensures { result ≡ value }
{
    match TableValue::new(value) {
        None => unreachable!(),
        Some(made) => made,
    }
}

/// Appends the merged items of a group.
fn put_group(
    values: &mut Vec<TableValue>,
    keys: &ColList,
    tallies: &[Tally],
    group: &GroupEntry,
    items: &[MergeItem],
) -> Result<(), Memory>
    requires may { IsMergeable keys.now items.now tallies.now group.now }
    requires short { All IsShort values.old.items }
    ensures values { OnOk result (values.new.items
        ≡ values.old.items ++ group_values tallies.now keys.now items.now group.now) }
    ensures short { OnOk result (All IsShort values.new.items) }
{
    for item in items {
        put(values, table_value(merged(keys, tallies, group, item)))?;
    }
    Ok(())
}

/// Returns the values of the lines, line by line.
fn values_of(
    alloc: Global,
    lines: &[Line],
    keys: &ColList,
    tallies: &[Tally],
    items: &[MergeItem],
) -> Result<Vec<TableValue>, Memory>
    requires { All (λ l. IsMergeable keys.now items.now tallies.now l.group) lines.now }
    ensures values { IfOk result (λ values. values.items
        ≡ flat_map (line_values tallies.now keys.now items.now) lines.now) }
    ensures short { IfOk result (λ values. All IsShort values.items) }
{
    let mut values = values_room(alloc, lines.len(), items.len())?;
    for line in lines {
        put_group(&mut values, keys, tallies, &line.group, items)?;
    }
    Ok(values)
}

/// Returns the table of the lines.
fn line_table(
    alloc: Global,
    lines: &[Line],
    keys: &ColList,
    tallies: &[Tally],
    items: &[MergeItem],
) -> Result<Table, Memory>
    requires { All (λ l. IsMergeable keys.now items.now tallies.now l.group) lines.now }
    ensures { IfOk result (λ table. table
        ≡ map (line_values tallies.now keys.now items.now) lines.now) }
{
    let values = values_of(alloc, lines, keys, tallies, items)?;
    Ok(Table::of(values, items.len(), lines.len()))
}

/// Returns the table of lines that are in any order, no two of which tie.
fn all_table(
    alloc: Global,
    mut lines: Vec<Line>,
    tallies: &[Tally],
    keys: &ColList,
    merge: &MergePlan,
) -> Result<Table, Memory>
    requires may { All (λ l. IsMergeable keys.now merge.now.items tallies.now l.group) lines.items }
    requires apart { AreApart group_order
        (map (line_of tallies.now keys.now merge.now.items) lines.items) }
    ensures { IfOk result (λ table. table ≡ map (λ r. r.values) (first (limit_of merge.now.limit)
        (in_order group_order (map (line_of tallies.now keys.now merge.now.items) lines.items)))) }
{
    lines.sort_unstable();
    cut(&mut lines, merge.limit);
    line_table(
        alloc,
        lines.as_slice(),
        keys,
        tallies,
        merge.items.as_slice(),
    )
}

/// Returns the table of the first n of more than n lines in any order. Sorts only these n.
fn some_table(
    alloc: Global,
    lines: &mut [Line],
    n: usize,
    tallies: &[Tally],
    keys: &ColList,
    items: &[MergeItem],
) -> Result<Table, Memory>
    requires few { n < length lines.old }
    requires may { All (λ l. IsMergeable keys.now items.now tallies.now l.group) lines.old }
    requires apart { AreApart group_order (map (line_of tallies.now keys.now items.now) lines.old) }
    ensures { IfOk result (λ table. table ≡ map (λ r. r.values) (first (Some n)
        (in_order group_order (map (line_of tallies.now keys.now items.now) lines.old)))) }
{
    let (front, _, _) = lines.select_nth_unstable(n);
    front.sort_unstable();
    line_table(alloc, front, keys, tallies, items)
}

/// Returns the limit, if there are more lines.
fn limit_below(limit: Option<Int>, count: usize) -> Option<usize>
    ensures limit { IfSome result (λ n. limit_of limit ≡ Some n) }
    ensures below { IfSome result (λ n. n < count) }
{
    let n = limit?.get().unsigned_abs() as usize;
    if n < count { Some(n) } else { None }
}

/// Returns the table of groups whose totals are in range.
fn tested_table(
    alloc: Global,
    groups: Vec<GroupEntry>,
    tallies: &[Tally],
    keys: &ColList,
    merge: &MergePlan,
) -> Result<Table, Memory>
    requires may { All (IsMergeable keys.now merge.now.items tallies.now) groups.items }
    requires rise { Rise key_order (map (group_of tallies.now) groups.items) }
    ensures { IfOk result (λ table. table ≡ map (λ r. r.values) (first (limit_of merge.now.limit)
        (in_order group_order (map (merged_line keys.now merge.now)
        (map (group_of tallies.now) groups.items))))) }
{
    let mut lines = lines(alloc, groups, keys, merge, tallies)?;
    match limit_below(merge.limit, lines.len()) {
        None => all_table(alloc, lines, tallies, keys, merge),
        Some(n) => some_table(
            alloc,
            lines.as_mut_slice(),
            n,
            tallies,
            keys,
            merge.items.as_slice(),
        ),
    }
}

/// Returns the table of groups that ascend by their keys, or the first total that is out of range. Allocates memory for
/// the table, and for one line for each group.
pub(crate) fn group_table(
    alloc: Global,
    groups: Vec<GroupEntry>,
    tallies: &[Tally],
    keys: &ColList,
    merge: &MergePlan,
) -> Result<Table, Stop<TotalOut>>
    requires there { All (IsThere (length tallies.now)) groups.items }
    requires may { All (λ g. All (MayMerge keys.now g) merge.now.items)
        (map (group_of tallies.now) groups.items) }
    requires rise { Rise key_order (map (group_of tallies.now) groups.items) }
    ensures ok { IfOk result (λ table.
        merged_groups keys.now merge.now (map (group_of tallies.now) groups.items) ≡ Ok table) }
    ensures out { IfErr result (λ stop. IfBad stop (λ out.
        merged_groups keys.now merge.now (map (group_of tallies.now) groups.items)
        ≡ Err out.total)) }
{
    match first_out(tallies, groups.as_slice(), merge.items.as_slice()) {
        Some(total) => Err(Stop::Bad(TotalOut { total })),
        None => Ok(tested_table(alloc, groups, tallies, keys, merge)?),
    }
}
