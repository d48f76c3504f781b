//! The lines of an answer of groups, each with the sort key of its group.

ghost use Rattle.std.specs.Prelude.{◌≡◌, ◌≤◌, ◌+◌, ◌^◌, ◌++◌, All, IfOk, length, map, None, slice_get, unwrap_or, vec_capacity, vec_len};
ghost use Rattle.value_rules.specs.Widths.{IsOfSize};
ghost use Rattle.answer_rules.specs.Finish.{merge_down, merged_key, merged_order};
ghost use Rattle.answer_rules.specs.Groups.{number_of};
ghost use Rattle.answer_rules.specs.Ranks.{rank_class, rank_value};
ghost use Rattle.partial_groups.specs.Groups.{group_of};
ghost use Rattle.partial_groups.specs.Lines.{line_by};
ghost use Rattle.partial_groups.specs.Merging.{IsMergeable};
ghost use Rattle.answer_table.specs.Tables.{IsShort};

use crate::group_entry::GroupEntry;
use crate::line::Line;
use crate::merged::merged;
use crate::tally::Tally;
use answer_rules::{MergeItem, MergeKey, MergeOrder, MergePlan, Value};
use answer_table::lists::room;
use group_key::Key;
use sky_io::Memory;
use sql_bound::ColList;
use std::alloc::Global;

/// Returns the class of a sort key, which puts NULL before the numbers, or after them if the order is descending.
fn class(down: bool, key: Option<i128>) -> u8
    ensures { result ≡ rank_class down key }
{
    if key.is_none() == down { 1 } else { 0 }
}

/// Returns the number of a sort key, which is negated if the order is descending.
fn rank(down: bool, key: Option<i128>) -> i128
    requires { IsOfSize (2 ^ 126) key }
    ensures { result ≡ rank_value down key }
{
    match key {
        None => 0,
        Some(key) => if down { -key } else { key },
    }
}

/// Returns whether the order is descending.
fn goes_down(order: &Option<MergeOrder>) -> bool
    ensures { result ≡ merge_down order.now }
{
    match order {
        None => false,
        Some(order) => order.down,
    }
}

/// Returns the number that a value is compared by.
fn number_of(value: Value) -> Option<i128>
    requires { IsShort value }
    ensures number { result ≡ number_of value }
    ensures small { IsOfSize (2 ^ 126) result }
{
    match value {
        Value::Null => None,
        Value::Whole(number) => Some(number.get()),
        Value::Fixed4(value) => Some(value),
    }
}

/// Returns the value at a position of a key, or NULL if there is none.
fn key_at(key: &Key, place: usize) -> Option<i128>
    ensures value { result ≡ unwrap_or (slice_get key.now place) None }
    ensures small { IsOfSize (2 ^ 126) result }
{
    let key = key.open();
    let value = *key.as_slice().get(place)?;
    Some(value? as i128)
}

/// Returns the value that a group is ordered by.
fn key_of(
    keys: &ColList,
    items: &[MergeItem],
    tallies: &[Tally],
    group: &GroupEntry,
    key: MergeKey,
) -> Option<i128>
    requires { IsMergeable keys.now items.now tallies.now group.now }
    ensures value { result ≡ merged_key keys.now items.now (group_of tallies.now group.now) key }
    ensures small { IsOfSize (2 ^ 126) result }
{
    match key {
        MergeKey::ChunkKey => None,
        MergeKey::Item(place) => { number_of(merged(keys, tallies, group, items.get(place)?)) }
        MergeKey::Key(place) => key_at(&group.key, place),
    }
}

/// Returns the value that a group is ordered by, if there is an order.
fn order_key(
    keys: &ColList,
    merge: &MergePlan,
    tallies: &[Tally],
    group: &GroupEntry,
) -> Option<i128>
    requires { IsMergeable keys.now merge.now.items tallies.now group.now }
    ensures value { result
        ≡ merged_order keys.now merge.now.items (group_of tallies.now group.now) merge.now.order }
    ensures small { IsOfSize (2 ^ 126) result }
{
    match &merge.order {
        None => None,
        Some(order) => key_of(keys, merge.items.as_slice(), tallies, group, order.key),
    }
}

/// Returns the line of a group.
fn line(keys: &ColList, merge: &MergePlan, tallies: &[Tally], group: GroupEntry) -> Line
    requires { IsMergeable keys.now merge.now.items tallies.now group }
    ensures { result ≡ line_by tallies.now keys.now merge.now group }
{
    let key = order_key(keys, merge, tallies, &group);
    let down = goes_down(&merge.order);
    Line {
        class: class(down, key),
        value: rank(down, key),
        group,
    }
}

/// Appends the lines of the groups. Does not allocate.
fn put_lines(
    lines: &mut Vec<Line>,
    groups: Vec<GroupEntry>,
    keys: &ColList,
    merge: &MergePlan,
    tallies: &[Tally],
)
    requires room { vec_len lines.old + length groups.items ≤ vec_capacity lines.old }
    requires may { All (IsMergeable keys.now merge.now.items tallies.now) groups.items }
    ensures { lines.new.items
        ≡ lines.old.items ++ map (line_by tallies.now keys.now merge.now) groups.items }
{
    for group in groups {
        lines.push_reserved(line(keys, merge, tallies, group));
    }
}

/// Returns the lines of the groups, in the groups' order.
pub(crate) fn lines(
    alloc: Global,
    groups: Vec<GroupEntry>,
    keys: &ColList,
    merge: &MergePlan,
    tallies: &[Tally],
) -> Result<Vec<Line>, Memory>
    requires { All (IsMergeable keys.now merge.now.items tallies.now) groups.items }
    ensures { IfOk result (λ lines. lines.items
        ≡ map (line_by tallies.now keys.now merge.now) groups.items) }
{
    let mut lines = room(alloc, groups.len())?;
    put_lines(&mut lines, groups, keys, merge, tallies);
    Ok(lines)
}
