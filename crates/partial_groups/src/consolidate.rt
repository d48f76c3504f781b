//! Consolidating an aggregation table: groups with the same key are added up, so that one is left for each key,
//! ascending.
//!
//! The groups are sorted by their keys and read from the last one on. Each is appended to a new aggregation table, or
//! added to the last group there if both have the same key. Its aggregate states, or the sums, are appended to a new
//! list of aggregate states. Room for both lists is reserved before anything changes, so that a failure leaves the
//! aggregation table as it was. The old list is freed with the aggregate states that are no longer needed.

ghost use Rattle.std.specs.Prelude.{◌≡◌, ◌≤◌, ◌<◌, ◌+◌, ◌-◌, ◌*◌, ◌++◌, ◌∷◌, [], length, map, slice_range, vec_capacity, vec_len, All, IfOk, OnErr, OnOk};
ghost use Rattle.std.specs.List.Sorted.{IsPermutation, IsSorted};
ghost use Rattle.std.specs.Ordering.{is_eq, on};
ghost use Rattle.answer_rules.specs.Gather.{Rise, put_group};
ghost use Rattle.answer_rules.specs.Keys.{key_order};
ghost use Rattle.answer_rules.specs.Parts.{add_own, add_own_parts, add_own_sums};
ghost use Rattle.partial_groups.specs.Adding.{AllMayAdd, MayAdd, MayPut, TwoFit, part_in, parts_of};
ghost use Rattle.partial_groups.specs.Adding.{placed, stacked, summed, width_in};
ghost use Rattle.partial_groups.specs.Groups.{AreAddable, IsThere, gathered_of, group_of, width_of};
ghost use Rattle.partial_groups.specs.Sharing.{HaveOwnParts};

use crate::group_entry::GroupEntry;
use crate::tally::Tally;
use answer_table::lists::room;
use sky_io::Memory;
use std::alloc::Global;

/// Returns the sum of an aggregate state of the aggregation table and one of the new aggregation table.
pub(crate) fn sum_at(tallies: &Vec<Tally>, a: usize, fresh: &Vec<Tally>, b: usize) -> Tally
    requires a_there { a < length tallies.now.items }
    requires b_there { b < length fresh.now.items }
    requires small { MayAdd (part_in tallies.now.items a) (part_in fresh.now.items b) }
    ensures { result ≡ add_own (part_in tallies.now.items a) (part_in fresh.now.items b) }
{
    tallies[a].added(&fresh[b])
}

/// Adds the given number of aggregate states of the aggregation table, from `a` on, to those of the new aggregation
/// table, from `b` on. Appends the sums to the new one. Does not allocate.
fn put_sums(fresh: &mut Vec<Tally>, tallies: &Vec<Tally>, a: usize, b: usize, width: usize)
    requires room { vec_len fresh.old + width ≤ vec_capacity fresh.old }
    requires a_there { a + width ≤ length tallies.now.items }
    requires b_there { b + width ≤ length fresh.old.items }
    requires small { AllMayAdd (slice_range tallies.now.items a (a + width))
        (slice_range fresh.old.items b (b + width)) }
    ensures items { fresh.new.items ≡ fresh.old.items
        ++ add_own_parts (slice_range tallies.now.items a (a + width))
        (slice_range fresh.old.items b (b + width)) }
    ensures long { vec_len fresh.new ≡ vec_len fresh.old + width }
    ensures capacity { vec_capacity fresh.new ≡ vec_capacity fresh.old }
{
    for i in 0..width {
        let sum = sum_at(tallies, a + i, fresh, b + i);
        fresh.push_reserved(sum);
    }
}

/// Returns a copy of the aggregate state.
fn copy_at(tallies: &Vec<Tally>, a: usize) -> Tally
    requires { a < length tallies.now.items }
    ensures { result ≡ part_in tallies.now.items a }
{
    tallies[a].copy()
}

/// Appends copies of the given number of aggregate states of the aggregation table, from this position on, to the new
/// one. Does not allocate.
fn put_copies(fresh: &mut Vec<Tally>, tallies: &Vec<Tally>, from: usize, width: usize)
    requires room { vec_len fresh.old + width ≤ vec_capacity fresh.old }
    requires there { from + width ≤ length tallies.now.items }
    ensures items { fresh.new.items
        ≡ fresh.old.items ++ slice_range tallies.now.items from (from + width) }
    ensures long { vec_len fresh.new ≡ vec_len fresh.old + width }
    ensures capacity { vec_capacity fresh.new ≡ vec_capacity fresh.old }
{
    for i in 0..width {
        let part = copy_at(tallies, from + i);
        fresh.push_reserved(part);
    }
}

/// Returns whether both have the same key.
fn is_same(a: &GroupEntry, b: &GroupEntry) -> bool
    ensures { result ≡ is_eq (key_order a.now.key b.now.key) }
{
    a.key == b.key
}

/// Appends the group to the new aggregation table. Does not allocate.
pub(crate) fn put_alone(
    out: &mut Vec<GroupEntry>,
    fresh: &mut Vec<Tally>,
    tallies: &Vec<Tally>,
    group: GroupEntry,
)
    requires room { vec_len out.old < vec_capacity out.old }
    requires space { vec_len fresh.old + width_of group ≤ vec_capacity fresh.old }
    requires there { IsThere (length tallies.now.items) group }
    ensures parts { fresh.new.items ≡ fresh.old.items ++ parts_of tallies.now.items group }
    ensures groups { out.new.items ≡ out.old.items ++ placed (length fresh.old.items) group ∷ [] }
    ensures more { vec_len fresh.new ≡ vec_len fresh.old + width_of group }
    ensures space { vec_capacity fresh.new ≡ vec_capacity fresh.old }
    ensures long { vec_len out.new ≡ vec_len out.old + 1 }
    ensures room { vec_capacity out.new ≡ vec_capacity out.old }
{
    let from = fresh.len();
    let count = group.width();
    put_copies(fresh, tallies, group.from, count);
    let GroupEntry {
        key,
        rows,
        from: _,
        to: _,
    } = group;
    out.push_reserved(GroupEntry {
        key,
        rows,
        from,
        to: from + count,
    });
}

/// Appends the sum of the group and of `last`, which was taken out of the new aggregation table. Does not allocate.
fn put_sum(
    out: &mut Vec<GroupEntry>,
    fresh: &mut Vec<Tally>,
    tallies: &Vec<Tally>,
    group: &GroupEntry,
    last: GroupEntry,
)
    requires room { vec_len out.old < vec_capacity out.old }
    requires space { vec_len fresh.old + width_of group.now ≤ vec_capacity fresh.old }
    requires fit { TwoFit tallies.now.items group.now fresh.old.items last }
    ensures parts { fresh.new.items ≡ fresh.old.items
        ++ add_own_parts (parts_of tallies.now.items group.now) (parts_of fresh.old.items last) }
    ensures groups { out.new.items
        ≡ out.old.items ++ summed (length fresh.old.items) group.now last ∷ [] }
    ensures more { vec_len fresh.new ≡ vec_len fresh.old + width_of group.now }
    ensures space { vec_capacity fresh.new ≡ vec_capacity fresh.old }
    ensures long { vec_len out.new ≡ vec_len out.old + 1 }
    ensures room { vec_capacity out.new ≡ vec_capacity out.old }
{
    let from = fresh.len();
    let count = group.width();
    put_sums(fresh, tallies, group.from, last.from, count);
    let GroupEntry {
        key,
        rows,
        from: _,
        to: _,
    } = last;
    out.push_reserved(GroupEntry {
        key,
        rows: group.rows + rows,
        from,
        to: from + count,
    });
}

/// Adds the group to `last` if both have the same key, and otherwise puts both back, `last` first. Does not allocate.
fn put_two(
    out: &mut Vec<GroupEntry>,
    fresh: &mut Vec<Tally>,
    tallies: &Vec<Tally>,
    group: GroupEntry,
    last: GroupEntry,
)
    requires room { vec_len out.old + 2 ≤ vec_capacity out.old }
    requires space { vec_len fresh.old + width_of group ≤ vec_capacity fresh.old }
    requires mine { IsThere (length tallies.now.items) group }
    requires there { All (IsThere (length fresh.old.items)) (out.old.items ++ last ∷ []) }
    requires may { MayPut (group_of tallies.now.items group)
        (stacked fresh.old.items (out.old.items ++ last ∷ [])) }
    requires own { HaveOwnParts (out.old.items ++ last ∷ []) }
    ensures put { stacked fresh.new.items out.new.items
        ≡ put_group key_order add_own_sums (group_of tallies.now.items group)
        (stacked fresh.old.items (out.old.items ++ last ∷ [])) }
    ensures there { All (IsThere (length fresh.new.items)) out.new.items }
    ensures own { HaveOwnParts out.new.items }
    ensures more { vec_len fresh.new ≡ vec_len fresh.old + width_of group }
    ensures space { vec_capacity fresh.new ≡ vec_capacity fresh.old }
    ensures long { vec_len out.new ≤ vec_len out.old + 2 }
    ensures room { vec_capacity out.new ≡ vec_capacity out.old }
{
    if is_same(&group, &last) {
        put_sum(out, fresh, tallies, &group, last);
        return;
    }
    out.push_reserved(last);
    put_alone(out, fresh, tallies, group);
}

/// Puts a group into the new aggregation table, which is stored in descending order of keys: after its last group, or
/// added to it. Does not allocate.
fn step(out: &mut Vec<GroupEntry>, fresh: &mut Vec<Tally>, tallies: &Vec<Tally>, group: GroupEntry)
    requires room { vec_len out.old < vec_capacity out.old }
    requires space { vec_len fresh.old + width_of group ≤ vec_capacity fresh.old }
    requires mine { IsThere (length tallies.now.items) group }
    requires there { All (IsThere (length fresh.old.items)) out.old.items }
    requires may { MayPut (group_of tallies.now.items group)
        (stacked fresh.old.items out.old.items) }
    requires own { HaveOwnParts out.old.items }
    ensures put { stacked fresh.new.items out.new.items
        ≡ put_group key_order add_own_sums (group_of tallies.now.items group)
        (stacked fresh.old.items out.old.items) }
    ensures there { All (IsThere (length fresh.new.items)) out.new.items }
    ensures own { HaveOwnParts out.new.items }
    ensures more { vec_len fresh.new ≡ vec_len fresh.old + width_of group }
    ensures space { vec_capacity fresh.new ≡ vec_capacity fresh.old }
    ensures long { vec_len out.new ≤ vec_len out.old + 1 }
    ensures room { vec_capacity out.new ≡ vec_capacity out.old }
{
    match out.pop() {
        None => put_alone(out, fresh, tallies, group),
        Some(last) => put_two(out, fresh, tallies, group, last),
    }
}

/// Returns the number of aggregate states of each group, which is that of the first one.
fn width(groups: &Vec<GroupEntry>) -> usize
    ensures { result ≡ width_in groups.now.items }
{
    if groups.len() == 0 {
        return 0;
    }
    groups[0].width()
}

/// Returns the number of aggregate states of these groups. If it overflows, the result is out of memory.
pub(crate) fn part_count(groups: &Vec<GroupEntry>) -> Result<usize, Memory>
    ensures { IfOk result (λ n. n ≡ vec_len groups.now * width_in groups.now.items) }
{
    match groups.len().checked_mul(width(groups)) {
        None => Err(Memory),
        Some(count) => Ok(count),
    }
}

/// Creates an empty list with room for the aggregate states of these groups.
fn part_room(alloc: Global, groups: &Vec<GroupEntry>) -> Result<Vec<Tally>, Memory>
    ensures items { IfOk result (λ fresh. fresh.items ≡ []) }
    ensures room { IfOk result (λ fresh.
        vec_len groups.now * width_in groups.now.items ≤ vec_capacity fresh) }
    ensures none { IfOk result (λ fresh. vec_len fresh ≡ 0) }
{
    let count = part_count(groups)?;
    room(alloc, count)
}

/// Sorts the groups by their keys. A consolidated aggregation table is one ascending run, and what was appended to it
/// is a few more, which are merged. Allocates memory for as many groups. After `Err` nothing has changed.
fn sort(groups: &mut Vec<GroupEntry>) -> Result<(), Memory>
    ensures same { IsPermutation groups.old.items groups.new.items }
    ensures len { vec_len groups.new ≡ vec_len groups.old }
    ensures sorted { OnOk result (IsSorted (on (λ m. m.key) key_order) groups.new.items) }
    ensures err { OnErr result (groups.new.items ≡ groups.old.items) }
{
    Ok(groups.sort()?)
}

/// Leaves one group for each key, ascending, in which all groups with that key are added up. After `Err` nothing has
/// changed.
pub(crate) fn consolidate(
    alloc: Global,
    groups: &mut Vec<GroupEntry>,
    tallies: &mut Vec<Tally>,
) -> Result<(), Memory>
    requires { AreAddable tallies.old.items groups.old.items }
    ensures addable { AreAddable tallies.new.items groups.new.items }
    ensures consolidated { OnOk result (map (group_of tallies.new.items) groups.new.items
        ≡ gathered_of tallies.old.items groups.old.items) }
    ensures rise { OnOk result
        (Rise key_order (map (group_of tallies.new.items) groups.new.items)) }
    ensures own { OnOk result (HaveOwnParts groups.new.items) }
    ensures groups { OnErr result (groups.new.items ≡ groups.old.items) }
    ensures tallies { OnErr result (tallies.new.items ≡ tallies.old.items) }
{
    let mut fresh = part_room(alloc, groups)?;
    let mut out = room(alloc, groups.len())?;
    sort(groups)?;
    while let Some(group) = groups.pop() {
        step(&mut out, &mut fresh, tallies, group);
    }
    out.reverse();
    *groups = out;
    *tallies = fresh;
    Ok(())
}
