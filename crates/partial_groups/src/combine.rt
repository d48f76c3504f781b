//! Adding the groups of one aggregation table to another. Each is added to the group of its key if a cache entry leads
//! to one, and is appended if none does.
//!
//! A sum replaces the aggregate state that it was added to. No two groups share an aggregate state, so that the others
//! stay as they were. Room for groups and aggregate states is reserved before anything changes.

ghost use Rattle.std.specs.Prelude.{◌≡◌, ◌≤◌, ◌<◌, ◌+◌, ◌*◌, ◌++◌, ◌∷◌, [], length, slice_range, slice_set, true, vec_capacity, vec_len, All};
ghost use Rattle.std.specs.Ordering.{is_eq};
ghost use Rattle.answer_rules.specs.Gather.{gather};
ghost use Rattle.answer_rules.specs.Keys.{key_order};
ghost use Rattle.answer_rules.specs.Parts.{add_own, add_own_parts, add_own_sums};
ghost use Rattle.answer_rules.specs.Small.{IsSmallGroup};
ghost use Rattle.partial_groups.specs.Adding.{AllMayAdd, MayAdd, part_in, width_in};
ghost use Rattle.partial_groups.specs.Groups.{AreAddable, IsThere, MayGather, gathered_of, group_of, most_rows, width_of};
ghost use Rattle.partial_groups.specs.Sharing.{HaveOwnParts, KeepsRest, group_entry_in, grown};

use crate::candidates::Candidates;
use crate::consolidate::{put_alone, sum_at};
use crate::group_cache::{GroupCache, checked};
use crate::group_entry::GroupEntry;
use crate::tally::Tally;

/// Adds an aggregate state of the other aggregation table to one of this aggregation table. Does not allocate.
fn add_at(tallies: &mut Vec<Tally>, b: usize, more: &Vec<Tally>, a: usize)
    requires a_there { a < length more.now.items }
    requires b_there { b < length tallies.old.items }
    requires small { MayAdd (part_in more.now.items a) (part_in tallies.old.items b) }
    ensures items { tallies.new.items ≡ slice_set tallies.old.items b
        (add_own (part_in more.now.items a) (part_in tallies.old.items b)) }
    ensures long { vec_len tallies.new ≡ vec_len tallies.old }
    ensures capacity { vec_capacity tallies.new ≡ vec_capacity tallies.old }
{
    tallies[b] = sum_at(more, a, tallies, b);
}

/// Adds the given number of aggregate states of the other aggregation table, from `a` on, to those of this aggregation
/// table, from `b` on. Does not allocate.
fn add_parts(tallies: &mut Vec<Tally>, b: usize, more: &Vec<Tally>, a: usize, width: usize)
    requires a_there { a + width ≤ length more.now.items }
    requires b_there { b + width ≤ length tallies.old.items }
    requires small { AllMayAdd (slice_range more.now.items a (a + width))
        (slice_range tallies.old.items b (b + width)) }
    ensures items { length tallies.new.items ≡ length tallies.old.items }
    ensures sums { slice_range tallies.new.items b (b + width)
        ≡ add_own_parts (slice_range more.now.items a (a + width))
        (slice_range tallies.old.items b (b + width)) }
    ensures rest { KeepsRest tallies.old.items tallies.new.items b (b + width) }
    ensures long { vec_len tallies.new ≡ vec_len tallies.old }
    ensures capacity { vec_capacity tallies.new ≡ vec_capacity tallies.old }
{
    for i in 0..width {
        add_at(tallies, b + i, more, a + i);
    }
}

/// Adds the given number of rows to those of the group at the position. Does not allocate.
fn add_rows(groups: &mut Vec<GroupEntry>, place: usize, rows: u32)
    requires there { place < length groups.old.items }
    requires few { rows + (group_entry_in groups.old.items place).rows ≤ most_rows }
    ensures items { groups.new.items
        ≡ slice_set groups.old.items place (grown rows (group_entry_in groups.old.items place)) }
    ensures long { vec_len groups.new ≡ vec_len groups.old }
    ensures capacity { vec_capacity groups.new ≡ vec_capacity groups.old }
{
    groups[place].rows = rows + groups[place].rows;
}

/// Adds a group of the other aggregation table to the one at the position, which has its key. Does not allocate.
fn add_to(
    groups: &mut Vec<GroupEntry>,
    tallies: &mut Vec<Tally>,
    place: usize,
    more: &Vec<Tally>,
    other: &GroupEntry,
)
    requires at { place < length groups.old.items }
    requires key { is_eq (key_order other.now.key (group_entry_in groups.old.items place).key)
        ≡ true }
    requires mine { AreAddable tallies.old.items groups.old.items }
    requires own { HaveOwnParts groups.old.items }
    requires there { IsThere (length more.now.items) other.now }
    requires small { IsSmallGroup (group_of more.now.items other.now) }
    requires alike { MayGather (gathered_of tallies.old.items groups.old.items)
        (group_of more.now.items other.now ∷ []) }
    ensures mine { AreAddable tallies.new.items groups.new.items }
    ensures own { HaveOwnParts groups.new.items }
    ensures put { gathered_of tallies.new.items groups.new.items
        ≡ gather key_order add_own_sums (gathered_of tallies.old.items groups.old.items
        ++ group_of more.now.items other.now ∷ []) }
    ensures long { vec_len groups.new ≡ vec_len groups.old }
    ensures room { vec_capacity groups.new ≡ vec_capacity groups.old }
    ensures more { vec_len tallies.new ≡ vec_len tallies.old }
    ensures space { vec_capacity tallies.new ≡ vec_capacity tallies.old }
{
    let from = groups[place].from;
    add_parts(tallies, from, more, other.from, other.width());
    add_rows(groups, place, other.rows);
}

/// Adds a group of the other aggregation table: to the one at the candidate, if that has its key. Does not allocate.
fn combine_one(
    groups: &mut Vec<GroupEntry>,
    tallies: &mut Vec<Tally>,
    cache: &mut GroupCache,
    more: &Vec<Tally>,
    other: &mut GroupEntry,
    candidate: usize,
)
    requires room { vec_len groups.old < vec_capacity groups.old }
    requires space { vec_len tallies.old + width_of other.old ≤ vec_capacity tallies.old }
    requires mine { AreAddable tallies.old.items groups.old.items }
    requires own { HaveOwnParts groups.old.items }
    requires there { IsThere (length more.now.items) other.old }
    requires small { IsSmallGroup (group_of more.now.items other.old) }
    requires alike { MayGather (gathered_of tallies.old.items groups.old.items)
        (group_of more.now.items other.old ∷ []) }
    ensures mine { AreAddable tallies.new.items groups.new.items }
    ensures own { HaveOwnParts groups.new.items }
    ensures put { gathered_of tallies.new.items groups.new.items
        ≡ gather key_order add_own_sums (gathered_of tallies.old.items groups.old.items
        ++ group_of more.now.items other.old ∷ []) }
    ensures long { vec_len groups.new ≤ vec_len groups.old + 1 }
    ensures room { vec_capacity groups.new ≡ vec_capacity groups.old }
    ensures more { vec_len tallies.new ≤ vec_len tallies.old + width_of other.old }
    ensures space { vec_capacity tallies.new ≡ vec_capacity tallies.old }
{
    match checked(groups, candidate, &other.key) {
        Some(place) => add_to(groups, tallies, place, more, other),
        None => put_behind(groups, tallies, cache, more, other.take()),
    }
}

/// Appends a group of the other aggregation table, and stores its position in the cache. Does not allocate.
fn put_behind(
    groups: &mut Vec<GroupEntry>,
    tallies: &mut Vec<Tally>,
    cache: &mut GroupCache,
    more: &Vec<Tally>,
    other: GroupEntry,
)
    requires room { vec_len groups.old < vec_capacity groups.old }
    requires space { vec_len tallies.old + width_of other ≤ vec_capacity tallies.old }
    requires mine { AreAddable tallies.old.items groups.old.items }
    requires own { HaveOwnParts groups.old.items }
    requires there { IsThere (length more.now.items) other }
    requires small { IsSmallGroup (group_of more.now.items other) }
    requires alike { MayGather (gathered_of tallies.old.items groups.old.items)
        (group_of more.now.items other ∷ []) }
    ensures mine { AreAddable tallies.new.items groups.new.items }
    ensures own { HaveOwnParts groups.new.items }
    ensures put { gathered_of tallies.new.items groups.new.items
        ≡ gather key_order add_own_sums (gathered_of tallies.old.items groups.old.items
        ++ group_of more.now.items other ∷ []) }
    ensures long { vec_len groups.new ≡ vec_len groups.old + 1 }
    ensures room { vec_capacity groups.new ≡ vec_capacity groups.old }
    ensures more { vec_len tallies.new ≡ vec_len tallies.old + width_of other }
    ensures space { vec_capacity tallies.new ≡ vec_capacity tallies.old }
{
    cache.note(&other.key, groups.len());
    put_alone(groups, tallies, more, other);
}

/// Adds the groups of the other aggregation table. Does not allocate. The groups are read in place: most of them are
/// added to groups of this aggregation table, and only those that are appended are moved.
pub(crate) fn combine_all(
    groups: &mut Vec<GroupEntry>,
    tallies: &mut Vec<Tally>,
    cache: &mut GroupCache,
    mut others: Vec<GroupEntry>,
    more: &Vec<Tally>,
)
    requires room { vec_len groups.old + length others.items ≤ vec_capacity groups.old }
    requires space { vec_len tallies.old + length others.items * width_in others.items
        ≤ vec_capacity tallies.old }
    requires mine { AreAddable tallies.old.items groups.old.items }
    requires own { HaveOwnParts groups.old.items }
    requires theirs { AreAddable more.now.items others.items }
    requires alike { MayGather (gathered_of tallies.old.items groups.old.items)
        (gathered_of more.now.items others.items) }
    ensures mine { AreAddable tallies.new.items groups.new.items }
    ensures own { HaveOwnParts groups.new.items }
    ensures joined { gathered_of tallies.new.items groups.new.items
        ≡ gather key_order add_own_sums (gathered_of tallies.old.items groups.old.items
        ++ gathered_of more.now.items others.items) }
{
    let mut candidates = Candidates::none();
    for i in 0..others.len() {
        candidates.look_up(cache, groups, tallies, &others, i);
        let candidate = candidates.at(i);
        combine_one(groups, tallies, cache, more, &mut others[i], candidate);
    }
}
