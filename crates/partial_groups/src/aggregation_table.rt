//! An aggregation table: the keys of its groups in one list, and all their aggregate states in another.
//!
//! It may hold a key more than once. Contracts see the list in which the groups with the same key are added up.

ghost use Rattle.std.specs.Prelude.{◌≡◌, ◌+◌, ◌≤◌, ◌<◌, ◌*◌, ◌^◌, ◌++◌, ◌∷◌, [], All, Err, length, map, IfErr, IfOk, Ok, OnErr, OnOk, vec_capacity, vec_len};
ghost use Rattle.answer_rules.specs.Finish.{groups_merged, merged_groups};
ghost use Rattle.answer_rules.specs.Gather.{gather};
ghost use Rattle.answer_rules.specs.Keys.{key_order};
ghost use Rattle.answer_rules.specs.Parts.{add_own_sums};
ghost use Rattle.answer_rules.specs.Small.{IsSmallGroup};
ghost use Rattle.partial_groups.specs.Merging.{MayMerge};
ghost use Rattle.sky_io.specs.Stops.{IfBad};
ghost use Rattle.partial_groups.specs.Adding.{width_in};
ghost use Rattle.partial_groups.specs.Groups.{AreAddable, MayGather, gathered_of, group_by};
ghost use Rattle.partial_groups.specs.Sharing.{HaveOwnParts};

use crate::combine::combine_all;
use crate::consolidate::{consolidate, part_count};
use crate::doubling::consolidate_if_doubled;
use crate::group_cache::GroupCache;
use crate::group_entry::GroupEntry;
use crate::group_table::group_table;
use crate::keyless_group::put_keyless_group;
use crate::tally::Tally;
use answer_rules::{MergePlan, TotalOut};
use answer_table::Table;
use answer_table::lists::reserve;
use group_key::Key;
use sky_io::{Memory, Stop};
use sql_bound::ColList;
use std::alloc::Global;
use std::marker::Model;

/// The groups of a piece.
pub struct AggregationTable {
    alloc: Global,
    groups: Vec<GroupEntry>,
    tallies: Vec<Tally>,
    consolidated: usize,
    cache: GroupCache,
}

// A derived drop would be proved again in each crate that drops one.
impl Drop for AggregationTable {
    fn drop(self) {
        let AggregationTable {
            alloc,
            groups,
            tallies,
            consolidated,
            cache,
        } = self;
    }
}

/// The aggregation table is consolidated for the first time when it has twice this number of groups.
const SHORT: usize = 32;

impl Model for AggregationTable {
    ghost use Rattle.partial_groups.specs.Groups.{AreAddable, Gathered, gathered_of};
    ghost use Rattle.partial_groups.specs.Sharing.{HaveOwnParts};

    ghost Value = { Gathered };

    ghost view = { λ p. gathered_of p.tallies.items p.groups.items };

    ghost invariant = { λ p. AreAddable p.tallies.items p.groups.items
        × HaveOwnParts p.groups.items };
}

/// Appends copies of the aggregate states. Does not allocate.
fn put_reserved(tallies: &mut Vec<Tally>, parts: &[Tally])
    requires { vec_len tallies.old + length parts.now ≤ vec_capacity tallies.old }
    ensures { tallies.new.items ≡ tallies.old.items ++ parts.now }
{
    for part in parts {
        tallies.push_reserved(part.copy());
    }
}

/// Appends copies of the aggregate states.
fn put_parts(tallies: &mut Vec<Tally>, parts: &[Tally]) -> Result<(), Memory>
    ensures ok { OnOk result (tallies.new.items ≡ tallies.old.items ++ parts.now) }
    ensures err { OnErr result (tallies.new.items ≡ tallies.old.items) }
{
    reserve(tallies, parts.len())?;
    put_reserved(tallies, parts);
    Ok(())
}

/// Reserves room for the groups of another aggregation table and for their aggregate states. After `Err` nothing has
/// changed.
fn make_room(
    groups: &mut Vec<GroupEntry>,
    tallies: &mut Vec<Tally>,
    others: &Vec<GroupEntry>,
) -> Result<(), Memory>
    ensures groups { groups.new.items ≡ groups.old.items }
    ensures tallies { tallies.new.items ≡ tallies.old.items }
    ensures room { OnOk result (vec_len groups.new + length others.now.items
        ≤ vec_capacity groups.new) }
    ensures space { OnOk result (vec_len tallies.new
        + length others.now.items * width_in others.now.items ≤ vec_capacity tallies.new) }
{
    reserve(groups, others.len())?;
    reserve(tallies, part_count(others)?)
}

/// Adds the groups of another aggregation table. After `Err` nothing has changed.
fn join(
    groups: &mut Vec<GroupEntry>,
    tallies: &mut Vec<Tally>,
    cache: &mut GroupCache,
    others: Vec<GroupEntry>,
    more: Vec<Tally>,
) -> Result<(), Memory>
    requires mine { AreAddable tallies.old.items groups.old.items }
    requires own { HaveOwnParts groups.old.items }
    requires theirs { AreAddable more.items others.items }
    requires alike { MayGather (gathered_of tallies.old.items groups.old.items)
        (gathered_of more.items others.items) }
    ensures mine { AreAddable tallies.new.items groups.new.items }
    ensures own { HaveOwnParts groups.new.items }
    ensures joined { OnOk result (gathered_of tallies.new.items groups.new.items
        ≡ gather key_order add_own_sums (gathered_of tallies.old.items groups.old.items
        ++ gathered_of more.items others.items)) }
    ensures groups { OnErr result (groups.new.items ≡ groups.old.items) }
    ensures tallies { OnErr result (tallies.new.items ≡ tallies.old.items) }
{
    make_room(groups, tallies, &others)?;
    combine_all(groups, tallies, cache, others, &more);
    Ok(())
}

/// Appends a group, and copies of its aggregate states. After `Err` nothing has changed.
fn put(
    groups: &mut Vec<GroupEntry>,
    tallies: &mut Vec<Tally>,
    key: Key,
    rows: u32,
    parts: &[Tally],
) -> Result<(), Memory>
    requires mine { AreAddable tallies.old.items groups.old.items }
    requires own { HaveOwnParts groups.old.items }
    requires alike { MayGather (gathered_of tallies.old.items groups.old.items)
        (group_by key rows parts.now ∷ []) }
    requires small { IsSmallGroup (group_by key rows parts.now) }
    ensures mine { AreAddable tallies.new.items groups.new.items }
    ensures own { HaveOwnParts groups.new.items }
    ensures put { OnOk result (gathered_of tallies.new.items groups.new.items
        ≡ gather key_order add_own_sums (gathered_of tallies.old.items groups.old.items
        ++ group_by key rows parts.now ∷ [])) }
    ensures groups { OnErr result (groups.new.items ≡ groups.old.items) }
    ensures tallies { OnErr result (tallies.new.items ≡ tallies.old.items) }
{
    let count = parts.len();
    let by = tallies.len();
    reserve(groups, 1)?;
    put_parts(tallies, parts)?;
    groups.push_reserved(GroupEntry {
        key,
        rows,
        from: by,
        to: by + count,
    });
    Ok(())
}

impl AggregationTable {
    /// Creates an aggregation table without groups. Does not allocate.
    pub fn empty(alloc: Global) -> AggregationTable
        ensures { result ≡ [] }
    {
        AggregationTable {
            alloc,
            groups: Vec::new(alloc),
            tallies: Vec::new(alloc),
            consolidated: SHORT,
            cache: GroupCache::none(alloc),
        }
    }

    /// Adds a group with the same combine functions. After `Err` nothing has changed.
    pub fn push(&mut self, key: Key, rows: u32, parts: &[Tally]) -> Result<(), Memory>
        requires alike { MayGather self.old (group_by key rows parts.now ∷ []) }
        requires small { IsSmallGroup (group_by key rows parts.now) }
        ensures put { OnOk result (self.new
            ≡ gather key_order add_own_sums (self.old ++ group_by key rows parts.now ∷ [])) }
        ensures same { OnErr result (self.new ≡ self.old) }
    {
        put(&mut self.groups, &mut self.tallies, key, rows, parts)
    }

    /// Adds the groups of another aggregation table with the same combine functions. After `Err` nothing has changed.
    pub fn absorb(&mut self, other: AggregationTable) -> Result<(), Memory>
        requires alike { MayGather self.old other }
        ensures joined { OnOk result (self.new
            ≡ gather key_order add_own_sums (self.old ++ other)) }
        ensures same { OnErr result (self.new ≡ self.old) }
    {
        let AggregationTable {
            alloc: _,
            groups,
            tallies,
            consolidated: _,
            cache: _,
        } = other;
        join(
            &mut self.groups,
            &mut self.tallies,
            &mut self.cache,
            groups,
            tallies,
        )?;
        self.consolidated = consolidate_if_doubled(
            self.alloc,
            &mut self.groups,
            &mut self.tallies,
            &mut self.cache,
            self.consolidated,
        );
        Ok(())
    }

    /// Returns the table of the groups by these keys, or the first total that is out of range.
    pub fn finish(
        self,
        alloc: Global,
        keys: &ColList,
        merge: &MergePlan,
    ) -> Result<Table, Stop<TotalOut>>
        requires { All (λ g. All (MayMerge keys.now g) merge.now.items)
            (groups_merged keys.now self) }
        ensures ok { IfOk result (λ table.
            merged_groups keys.now merge.now (groups_merged keys.now self) ≡ Ok table) }
        ensures out { IfErr result (λ stop. IfBad stop (λ out.
            merged_groups keys.now merge.now (groups_merged keys.now self) ≡ Err out.total)) }
    {
        let AggregationTable {
            alloc: _,
            mut groups,
            mut tallies,
            consolidated: _,
            cache: _,
        } = self;
        consolidate(alloc, &mut groups, &mut tallies)?;
        put_keyless_group(&mut groups, keys)?;
        group_table(alloc, groups, tallies.as_slice(), keys, merge)
    }

    /// Returns the number of groups, where one key may count more than once. Does not allocate.
    pub fn len(&self) -> usize
        ensures most { length self.now ≤ result }
        ensures small { result < 2 ^ 63 }
        ensures gathered { gather key_order add_own_sums self.now ≡ self.now }
    {
        self.groups.len()
    }
}
