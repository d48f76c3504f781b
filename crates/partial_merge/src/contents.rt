//! What a piece contains: rows, or groups.

ghost use Rattle.std.specs.Prelude.{◌≡◌, ◌≤◌, [], Err, IfErr, IfOk, Ok, OnErr, OnOk};
ghost use Rattle.std.specs.Bool.{OnTrue};
ghost use Rattle.answer_rules.specs.Keeps.{AreApart};
ghost use Rattle.answer_rules.specs.PieceLaws.{empty_view};
ghost use Rattle.answer_rules.specs.Ranks.{row_order};
ghost use Rattle.answer_rules.specs.Rows.{limit_of};
ghost use Rattle.partial_merge.specs.Contents.{IsCombined, MayCombine, rows_of, view_in};
ghost use Rattle.partial_rows.specs.Multisets.{out_row};
ghost use Rattle.partial_merge.specs.Joining.{IsNoneOfFirst, IsOfRows, IsReportedLate, MayTakeGroup, MayTakeGroups, TakesRow, with_group, with_groups};
ghost use Rattle.partial_groups.specs.Groups.{group_by};
ghost use Rattle.partial_groups.specs.Ungrouped.{row_groups};
ghost use Rattle.partial_merge.specs.Sizes.{IsWithin, size_of};
ghost use Rattle.answer_rules.specs.Finish.{finished};
ghost use Rattle.answer_rules.specs.Pieces.{OfGroups, OfRows};
ghost use Rattle.partial_merge.specs.Merging.{CanFinish, CanMerge};
ghost use Rattle.sky_io.specs.Stops.{IfBad};

use answer_rules::{ChunkQuery, MergePlan, TotalOut};
use answer_table::Table;
use group_key::Key;
use partial_groups::Tally;
use partial_groups::grouped_rows::GroupedRows;
use partial_rows::Rank;
use partial_rows::multiset::Multiset;
use sky_io::{Memory, Stop};
use sky_vector::Num;
use sql_bound::{Int, Shape};
use std::alloc::Global;

/// Rows, or groups.
#[derive(Drop)]
pub(crate) enum Contents {
    Rows(Multiset),
    Groups(GroupedRows),
}

/// Returns a limit as a number of rows.
fn limit(limit: Option<Int>) -> Option<usize>
    ensures { result ≡ limit_of limit }
{
    Some(limit?.get().unsigned_abs() as usize)
}

/// Creates an empty value of the kind that the chunk query produces. Does not allocate.
pub(crate) fn nothing(alloc: Global, query: &ChunkQuery) -> Contents
    ensures { view_in result ≡ empty_view query.now.shape (limit_of query.now.limit) }
{
    match &query.shape {
        Shape::Rows => Contents::Rows(Multiset::empty(alloc, limit(query.limit))),
        Shape::Pairs { limit: _ } => Contents::Rows(Multiset::empty(alloc, limit(query.limit))),
        Shape::Groups { keys: _ } => Contents::Groups(GroupedRows::empty(alloc)),
    }
}

/// Creates an empty value of rows. Does not allocate.
pub(crate) fn no_rows(alloc: Global, limit: Option<usize>) -> Contents
    ensures { view_in result ≡ OfRows limit [] }
{
    Contents::Rows(Multiset::empty(alloc, limit))
}

/// Adds what another piece contains. After `Err` nothing has changed.
pub(crate) fn combine_contents(contents: &mut Contents, other: Contents) -> Result<(), Memory>
    requires { MayCombine contents.old other }
    ensures joined { OnOk result (IsCombined contents.old other contents.new) }
    ensures same { OnErr result (view_in contents.new ≡ view_in contents.old) }
{
    match (contents, other) {
        (Contents::Rows(mine), Contents::Rows(theirs)) => mine.absorb(theirs),
        (Contents::Groups(mine), Contents::Groups(theirs)) => mine.absorb(theirs),
        _ => unreachable!(),
    }
}

/// Returns true only if a row with this sort key is none of the first that are kept, whatever its values.
pub(crate) fn is_too_late(contents: &Contents, rank: &Rank) -> bool
    ensures late { OnTrue result (IsNoneOfFirst (view_in contents.now) rank.now) }
    ensures reported { IsReportedLate (view_in contents.now) rank.now result }
{
    match contents {
        Contents::Rows(multiset) => multiset.is_too_late(rank),
        Contents::Groups(_) => false,
    }
}

/// Adds a row with this sort key and these values. After `Err` nothing has changed.
pub(crate) fn push_row(
    contents: &mut Contents,
    rank: &Rank,
    values: &[Option<Num>],
) -> Result<(), Memory>
    requires rows { IsOfRows (view_in contents.old) }
    ensures kept { OnOk result (TakesRow (view_in contents.old) (out_row rank.now values.now)
        (view_in contents.new)) }
    ensures same { OnErr result (view_in contents.new ≡ view_in contents.old) }
{
    match contents {
        Contents::Rows(multiset) => multiset.push(rank, values),
        Contents::Groups(_) => unreachable!(),
    }
}

/// Adds a group with this key. After `Err` nothing has changed.
pub(crate) fn push_group(
    contents: &mut Contents,
    key: Key,
    rows: u32,
    parts: &[Tally],
) -> Result<(), Memory>
    requires alike { MayTakeGroup (view_in contents.old) (group_by key rows parts.now) }
    ensures put { OnOk result (view_in contents.new
        ≡ with_group (view_in contents.old) (group_by key rows parts.now)) }
    ensures same { OnErr result (view_in contents.new ≡ view_in contents.old) }
{
    match contents {
        Contents::Rows(_) => unreachable!(),
        Contents::Groups(grouped_rows) => grouped_rows.push(key, rows, parts),
    }
}

/// Adds rows with these numbers as their keys. After `Err` nothing has changed.
pub(crate) fn push_rows(
    contents: &mut Contents,
    counted: Vec<bool>,
    values: Vec<i64>,
) -> Result<(), Memory>
    requires alike { MayTakeGroups (view_in contents.old) (row_groups counted.items values.items) }
    ensures put { OnOk result (view_in contents.new
        ≡ with_groups (view_in contents.old) (row_groups counted.items values.items)) }
    ensures same { OnErr result (view_in contents.new ≡ view_in contents.old) }
{
    match contents {
        Contents::Rows(_) => unreachable!(),
        Contents::Groups(grouped_rows) => grouped_rows.push_rows(counted, values),
    }
}

/// Returns the number of rows, or of groups, where one key may count more than once.
pub(crate) fn count(contents: &Contents) -> usize
    ensures held { IsOfRows (view_in contents.now) → result ≡ size_of (view_in contents.now) }
    ensures most { size_of (view_in contents.now) ≤ result }
    ensures few { IsWithin result (view_in contents.now) }
{
    match contents {
        Contents::Rows(multiset) => multiset.row_count(),
        Contents::Groups(grouped_rows) => grouped_rows.len(),
    }
}

/// Returns the table of the rows or groups, or the first total that is out of range.
pub(crate) fn finish(
    alloc: Global,
    contents: Contents,
    merge: &MergePlan,
) -> Result<Table, Stop<TotalOut>>
    requires { CanFinish merge.now (view_in contents) }
    ensures ok { IfOk result (λ table. finished merge.now (view_in contents) ≡ Ok table) }
    ensures out { IfErr result (λ stop. IfBad stop (λ out.
        finished merge.now (view_in contents) ≡ Err out.total)) }
{
    match contents {
        Contents::Rows(multiset) => Ok(multiset.finish(alloc, merge)?),
        Contents::Groups(grouped_rows) => finish_groups(alloc, grouped_rows, merge),
    }
}

/// Returns the table of rows, no two of which are equal in order.
pub(crate) fn finish_rows(
    alloc: Global,
    contents: Contents,
    merge: &MergePlan,
) -> Result<Table, Memory>
    requires rows { IsOfRows (view_in contents) }
    requires apart { AreApart row_order (rows_of (view_in contents)) }
    ensures { IfOk result (λ table. finished merge.now (view_in contents) ≡ Ok table) }
{
    match contents {
        Contents::Rows(multiset) => multiset.finish(alloc, merge),
        Contents::Groups(_) => unreachable!(),
    }
}

/// Returns the table of groups, or the first total that is out of range.
fn finish_groups(
    alloc: Global,
    grouped_rows: GroupedRows,
    merge: &MergePlan,
) -> Result<Table, Stop<TotalOut>>
    requires { CanMerge merge.now.shape merge.now.items grouped_rows }
    ensures ok { IfOk result (λ table. finished merge.now (OfGroups grouped_rows) ≡ Ok table) }
    ensures out { IfErr result (λ stop. IfBad stop (λ out.
        finished merge.now (OfGroups grouped_rows) ≡ Err out.total)) }
{
    match &merge.shape {
        Shape::Groups { keys } => grouped_rows.finish(alloc, keys, merge),
        _ => unreachable!(),
    }
}
