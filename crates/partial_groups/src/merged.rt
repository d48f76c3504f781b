//! The merged items of a group.

ghost use Rattle.std.specs.Prelude.{◌≡◌, ◌<◌, IfSome, length, None, slice_get, unwrap_or};
ghost use Rattle.value_rules.specs.Keys.{key_cell};
ghost use Rattle.value_rules.specs.Terms.{term_of};
ghost use Rattle.value_rules.specs.Values.{value_at as value_on};
ghost use Rattle.value_rules.specs.Widths.{IsOfSize, most};
ghost use Rattle.answer_rules.specs.Finish.{average_of, merged_value};
ghost use Rattle.answer_rules.specs.Parts.{count_part};
ghost use Rattle.answer_rules.specs.Rows.{shown};
ghost use Rattle.partial_groups.specs.Groups.{IsThere, group_of};
ghost use Rattle.partial_groups.specs.Merging.{IsOnKey, IsTested, MayMerge};
ghost use Rattle.answer_table.specs.Tables.{IsShort};

use crate::average::rounded;
use crate::group_entry::GroupEntry;
use crate::tally::Tally;
use answer_rules::{MergeItem, Value};
use answer_table::values::{number, shown};
use expr_eval::value_on_key;
use group_key::Key;
use sql_bound::{BoundExpr, ColList};

/// Returns the aggregate states of a group.
pub(crate) fn parts_of<'t>(tallies: &'t [Tally], group: &GroupEntry) -> &'t [Tally]
    requires { IsThere (length tallies.now) group.now }
    ensures { result.now ≡ (group_of tallies.now group.now).part.parts }
{
    &tallies[group.from..group.to]
}

/// Returns how many values the aggregate state at a position counts, or 0 if there is none.
fn seen_at(parts: &[Tally], n: usize) -> u32
    ensures { result ≡ (unwrap_or (slice_get parts.now n) (count_part 0)).seen }
{
    match parts.get(n) {
        None => 0,
        Some(part) => part.seen(),
    }
}

/// Returns the value of the aggregate state at a position, or `None` if there is none.
pub(crate) fn value_at(parts: &[Tally], n: usize) -> Option<i128>
    ensures { result ≡ (unwrap_or (slice_get parts.now n) (count_part 0)).value }
{
    match parts.get(n) {
        None => None,
        Some(part) => part.value(),
    }
}

/// Returns a whole number, or NULL.
fn whole(value: Option<i128>) -> Value
    requires { IsOfSize most value }
    ensures { result ≡ shown value }
{
    match value {
        None => Value::Null,
        Some(value) => Value::Whole(number(value)),
    }
}

/// Returns an average, or NULL.
fn average(total: Option<i128>, count: u32) -> Value
    requires small { IsOfSize most total }
    requires some { IfSome total (λ t. 0 < count) }
    ensures average { result ≡ average_of total count }
    ensures short { IsShort result }
{
    match total {
        None => Value::Null,
        Some(total) => Value::Fixed4(rounded(total, count)),
    }
}

/// Returns the value of an expression of the keys.
fn of_keys(e: &BoundExpr, keys: &ColList, key: &Key) -> Value
    requires { IsOnKey keys.now key.now e.now }
    ensures value { result ≡ shown (value_on (key_cell keys.now key.now) (term_of e.now)) }
    ensures short { IsShort result }
{
    let key = key.open();
    shown(value_on_key(e, keys, key.as_slice()))
}

/// Returns a merged item of a group whose totals are checked.
pub(crate) fn merged(
    keys: &ColList,
    tallies: &[Tally],
    group: &GroupEntry,
    item: &MergeItem,
) -> Value
    requires there { IsThere (length tallies.now) group.now }
    requires may { MayMerge keys.now (group_of tallies.now group.now) item.now }
    requires tested { IsTested (group_of tallies.now group.now) item.now }
    ensures value { result ≡ merged_value keys.now (group_of tallies.now group.now) item.now }
    ensures short { IsShort result }
{
    let parts = parts_of(tallies, group);
    match item {
        MergeItem::Column(_) => Value::Null,
        MergeItem::OfKeys(e) => of_keys(e, keys, &group.key),
        MergeItem::Count(n) => Value::Whole(number(seen_at(parts, *n) as i128)),
        MergeItem::Sum(n) => whole(value_at(parts, *n)),
        MergeItem::Min(n) => whole(value_at(parts, *n)),
        MergeItem::Max(n) => whole(value_at(parts, *n)),
        MergeItem::Avg { sum, count } => average(value_at(parts, *sum), seen_at(parts, *count)),
    }
}
