//! The groups of a piece, some of whose rows may not be in a group yet.
//!
//! If most rows of a chunk differ in the key column, little is gained by grouping them chunk by chunk: nearly every row is
//! a group of its own, which is then searched for among the groups of the other chunks. Such rows are kept as the numbers
//! that are their keys, in one list for each chunk (`number_lists`), and are grouped at the end, all at once (`counting`).
//! A row can be kept so if its key is one number, and each aggregate counts either all rows or none.
//!
//! Contracts see what the groups and the rows add up to.

ghost use Rattle.std.specs.Prelude.{◌≡◌, ◌≤◌, ◌++◌, ◌∷◌, [], All, Err, length, IfErr, IfOk, Ok, OnErr, OnOk};
ghost use Rattle.std.specs.Bool.{OnTrue};
ghost use Rattle.answer_rules.specs.Finish.{groups_merged, merged_groups};
ghost use Rattle.answer_rules.specs.Gather.{gather};
ghost use Rattle.answer_rules.specs.Keys.{key_order};
ghost use Rattle.answer_rules.specs.Parts.{add_own_sums};
ghost use Rattle.answer_rules.specs.Small.{IsSmallGroup};
ghost use Rattle.partial_groups.specs.Merging.{MayMerge};
ghost use Rattle.sky_io.specs.Stops.{IfBad};
ghost use Rattle.partial_groups.specs.Groups.{MayGather, group_by};
ghost use Rattle.partial_groups.specs.Ungrouped.{AreBothCombinable, IsJoined, row_groups, values_in};

use crate::aggregation_table::AggregationTable;
use crate::counting::grouped;
use crate::frequent::{rows_table, whole_table};
use crate::number_lists::{
    Bounds, append_lists, bounds_of, bounds_of_both, no_bounds, number_count, one_list,
};
use crate::tally::Tally;
use answer_rules::{MergePlan, TotalOut};
use answer_table::Table;
use answer_table::lists::reserve;
use group_key::Key;
use sky_io::{Memory, Stop};
use sql_bound::ColList;
use std::alloc::Global;
use std::marker::Model;

/// The groups of a piece, and the numbers of the rows that are not in a group yet, one list for each chunk. `counted` says
/// for each aggregate whether it counts these rows.
pub struct GroupedRows {
    alloc: Global,
    groups: AggregationTable,
    counted: Vec<bool>,
    lists: Vec<Vec<i64>>,
    /// The bounds of these numbers: each list is inspected once, as it comes.
    bounds: Bounds,
}

// A derived drop would be proved again in each crate that drops one.
impl Drop for GroupedRows {
    fn drop(self) {
        let GroupedRows {
            alloc,
            groups,
            counted,
            lists,
            bounds,
        } = self;
    }
}

impl Model for GroupedRows {
    ghost use Rattle.std.specs.Prelude.{◌++◌};
    ghost use Rattle.answer_rules.specs.Gather.{gather};
    ghost use Rattle.answer_rules.specs.Keys.{key_order};
    ghost use Rattle.answer_rules.specs.Parts.{add_own_sums};
    ghost use Rattle.partial_groups.specs.Groups.{Gathered};
    ghost use Rattle.partial_groups.specs.Ungrouped.{AreCombinable, row_groups, values_in};

    ghost Value = { Gathered };

    ghost view = { λ p. gather key_order add_own_sums
        (p.groups ++ row_groups p.counted.items (values_in p.lists.items)) };

    ghost invariant = { λ p. AreCombinable p.groups
        (row_groups p.counted.items (values_in p.lists.items)) };
}

/// Returns true only if both are equal.
fn is_same(a: bool, b: bool) -> bool
    ensures { OnTrue result (a ≡ b) }
{
    a == b
}

/// Returns true only if both lists are equal.
#[tactic(auto, using(crate::proofs::Combinable::same_taken))]
fn are_same(a: &[bool], b: &[bool]) -> bool
    ensures { OnTrue result (a.now ≡ b.now) }
{
    if a.len() != b.len() {
        return false;
    }
    for i in 0..a.len() {
        if !is_same(a[i], b[i]) {
            return false;
        }
    }
    true
}

/// Adds groups to the groups, and rows that are counted in the same way to the rows.
fn append(
    groups: &mut AggregationTable,
    counted: &Vec<bool>,
    lists: &mut Vec<Vec<i64>>,
    more: AggregationTable,
    others: Vec<Vec<i64>>,
) -> Result<(), Memory>
    requires { AreBothCombinable groups.old
        (row_groups counted.now.items (values_in lists.old.items)) more
        (row_groups counted.now.items (values_in others.items)) }
    ensures joined { OnOk result (IsJoined groups.old
        (row_groups counted.now.items (values_in lists.old.items)) more
        (row_groups counted.now.items (values_in others.items)) groups.new
        (row_groups counted.now.items (values_in lists.new.items))) }
    ensures groups { OnErr result (groups.new ≡ groups.old) }
    ensures lists { OnErr result (lists.new.items ≡ lists.old.items) }
{
    reserve(lists, others.len())?;
    groups.absorb(more)?;
    append_lists(lists, others);
    Ok(())
}

/// Adds groups and rows that are counted in another way: the rows are grouped first.
fn absorb_grouped(
    alloc: Global,
    groups: &mut AggregationTable,
    more: AggregationTable,
    counted: &[bool],
    others: Vec<Vec<i64>>,
    bounds: Bounds,
) -> Result<(), Memory>
    requires own { MayGather more (row_groups counted.now (values_in others.items)) }
    requires alike { MayGather groups.old (gather key_order add_own_sums
        (more ++ row_groups counted.now (values_in others.items))) }
    ensures joined { OnOk result (groups.new ≡ gather key_order add_own_sums (groups.old
        ++ gather key_order add_own_sums
        (more ++ row_groups counted.now (values_in others.items)))) }
    ensures same { OnErr result (groups.new ≡ groups.old) }
{
    let whole = grouped(alloc, more, counted, others, bounds)?;
    groups.absorb(whole)
}

impl GroupedRows {
    /// Creates groups without any rows. Does not allocate.
    pub fn empty(alloc: Global) -> GroupedRows
        ensures { result ≡ [] }
    {
        GroupedRows {
            alloc,
            groups: AggregationTable::empty(alloc),
            counted: Vec::new(alloc),
            lists: Vec::new(alloc),
            bounds: no_bounds(),
        }
    }

    /// Adds groups, and rows with the numbers of these lists as their keys. After `Err` nothing has changed.
    fn join(
        &mut self,
        groups: AggregationTable,
        counted: Vec<bool>,
        lists: Vec<Vec<i64>>,
        bounds: Bounds,
    ) -> Result<(), Memory>
        requires { MayGather self.old (groups ++ row_groups counted.items (values_in lists.items)) }
        ensures joined { OnOk result (self.new ≡ gather key_order add_own_sums
            (self.old ++ (groups ++ row_groups counted.items (values_in lists.items)))) }
        ensures same { OnErr result (self.new ≡ self.old) }
    {
        if self.lists.len() == 0 {
            self.groups.absorb(groups)?;
            self.counted = counted;
            self.lists = lists;
            self.bounds = bounds;
            return Ok(());
        }
        if are_same(self.counted.as_slice(), counted.as_slice()) {
            self.bounds = bounds_of_both(self.bounds, bounds);
            return append(
                &mut self.groups,
                &self.counted,
                &mut self.lists,
                groups,
                lists,
            );
        }
        absorb_grouped(
            self.alloc,
            &mut self.groups,
            groups,
            counted.as_slice(),
            lists,
            bounds,
        )
    }

    /// Adds a group with the same combine functions. After `Err` nothing has changed.
    pub fn push(&mut self, key: Key, rows: u32, parts: &[Tally]) -> Result<(), Memory>
        requires alike { MayGather self.old (group_by key rows parts.now ∷ []) }
        requires small { IsSmallGroup (group_by key rows parts.now) }
        ensures put { OnOk result (self.new
            ≡ gather key_order add_own_sums (self.old ++ group_by key rows parts.now ∷ [])) }
        ensures same { OnErr result (self.new ≡ self.old) }
    {
        self.groups.push(key, rows, parts)
    }

    /// Adds rows with these numbers as their keys, one row for each number. `counted` says for each aggregate whether it
    /// counts the rows. After `Err` nothing has changed.
    pub fn push_rows(&mut self, counted: Vec<bool>, values: Vec<i64>) -> Result<(), Memory>
        requires { MayGather self.old (row_groups counted.items values.items) }
        ensures put { OnOk result (self.new ≡ gather key_order add_own_sums
            (self.old ++ row_groups counted.items values.items)) }
        ensures same { OnErr result (self.new ≡ self.old) }
    {
        let none = AggregationTable::empty(self.alloc);
        let bounds = bounds_of(values.as_slice());
        let lists = one_list(self.alloc, values)?;
        self.join(none, counted, lists, bounds)
    }

    /// Adds the groups and rows of another piece with the same combine functions. After `Err` nothing has changed.
    pub fn absorb(&mut self, other: GroupedRows) -> Result<(), Memory>
        requires alike { MayGather self.old other }
        ensures joined { OnOk result (self.new
            ≡ gather key_order add_own_sums (self.old ++ other)) }
        ensures same { OnErr result (self.new ≡ self.old) }
    {
        let GroupedRows {
            alloc: _,
            groups,
            counted,
            lists,
            bounds,
        } = other;
        self.join(groups, counted, lists, bounds)
    }

    /// Returns the table of the groups by these keys, or the first total that is out of range.
    pub fn finish(
        self,
        alloc: Global,
        keys: &ColList,
        merge: &MergePlan,
    ) -> Result<Table, Stop<TotalOut>>
        requires { All (λ g. All (MayMerge keys.now g) merge.now.items)
            (groups_merged keys.now self) }
        ensures ok { IfOk result (λ table.
            merged_groups keys.now merge.now (groups_merged keys.now self) ≡ Ok table) }
        ensures out { IfErr result (λ stop. IfBad stop (λ out.
            merged_groups keys.now merge.now (groups_merged keys.now self) ≡ Err out.total)) }
    {
        let GroupedRows {
            alloc: _,
            groups,
            counted,
            lists,
            bounds,
        } = self;
        if groups.len() == 0 {
            return rows_table(alloc, groups, &counted, lists, bounds, keys, merge);
        }
        whole_table(alloc, groups, &counted, lists, bounds, keys, merge)
    }

    /// Returns the number of groups and of rows that are not in a group yet, where one key may count more than once. Does
    /// not allocate.
    pub fn len(&self) -> usize
        ensures { length self.now ≤ result }
    {
        let rows = number_count(self.lists.as_slice());
        self.groups.len().saturating_add(rows)
    }
}
