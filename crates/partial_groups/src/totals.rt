//! Totals of groups that are out of range.

ghost use Rattle.std.specs.Prelude.{◌≡◌, All, find, length, map, not, option_to_list, pos, unwrap_or};
ghost use Rattle.std.specs.List.{flat_map};
ghost use Rattle.sky_vector.specs.Numbers.{is_query_number};
ghost use Rattle.answer_rules.specs.Finish.{merged_out, merged_totals};
ghost use Rattle.partial_groups.specs.Groups.{IsThere, group_of};

use crate::group_entry::GroupEntry;
use crate::merged::{parts_of, value_at};
use crate::tally::Tally;
use answer_rules::MergeItem;
use sky_vector::Num;

/// Returns the total, or 0 if there is none.
fn total_or_0(total: Option<i128>) -> i128
    ensures { result ≡ unwrap_or total (pos 0) }
{
    match total {
        None => 0,
        Some(total) => total,
    }
}

/// Returns the total of a group that an item uses, if it uses one.
fn total(tallies: &[Tally], group: &GroupEntry, item: &MergeItem) -> Option<i128>
    requires { IsThere (length tallies.now) group.now }
    ensures { option_to_list result ≡ merged_totals (group_of tallies.now group.now) item.now }
{
    let parts = parts_of(tallies, group);
    match item {
        MergeItem::Sum(n) => Some(total_or_0(value_at(parts, *n))),
        MergeItem::Avg { sum, count: _ } => Some(total_or_0(value_at(parts, *sum))),
        _ => None,
    }
}

/// Returns whether the total is out of the range of a query's numbers.
fn is_out(total: i128) -> bool
    ensures { result ≡ not (is_query_number total) }
{
    match Num::new(total) {
        None => true,
        Some(_) => false,
    }
}

/// Returns the total, if it is out of range.
fn if_out(total: Option<i128>) -> Option<i128>
    ensures { result ≡ find (λ t. not (is_query_number t)) (option_to_list total) }
{
    let total = total?;
    if is_out(total) { Some(total) } else { None }
}

/// Returns the total of a group that an item uses, if it is out of range.
fn out_of(tallies: &[Tally], group: &GroupEntry, item: &MergeItem) -> Option<i128>
    requires { IsThere (length tallies.now) group.now }
    ensures { result ≡ find (λ t. not (is_query_number t))
        (merged_totals (group_of tallies.now group.now) item.now) }
{
    if_out(total(tallies, group, item))
}

/// Returns the first total of a group that is out of range, by item.
fn first_of(tallies: &[Tally], group: &GroupEntry, items: &[MergeItem]) -> Option<i128>
    requires { IsThere (length tallies.now) group.now }
    ensures { result ≡ find (λ t. not (is_query_number t))
        (flat_map (merged_totals (group_of tallies.now group.now)) items.now) }
{
    for item in items {
        let out = out_of(tallies, group, item);
        if out.is_some() {
            return out;
        }
    }
    None
}

/// Returns the first total that is out of range, by group, then by item.
pub(crate) fn first_out(
    tallies: &[Tally],
    groups: &[GroupEntry],
    items: &[MergeItem],
) -> Option<i128>
    requires { All (IsThere (length tallies.now)) groups.now }
    ensures { result ≡ merged_out items.now (map (group_of tallies.now) groups.now) }
{
    for group in groups {
        let out = first_of(tallies, group, items);
        if out.is_some() {
            return out;
        }
    }
    None
}
