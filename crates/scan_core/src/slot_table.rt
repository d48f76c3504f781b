//! The slots of a board, and which of them can matter to the scan.
//!
//! Usually few queries run, and their numbers are near one another. So the table stores a range of slots, and all slots
//! outside it are at rest: the query does not run, and needs no chunk. The loops of a take and of an attach inspect the
//! slots of the range alone. Only an attach changes the range. It first leaves out the slots at rest at both ends, and
//! then widens the range to the new query. Nothing is promised of how narrow the range is.
ghost use Rattle.std.specs.Prelude.{◌≡◌, ◌<◌, ◌≤◌, length, get_or, true, IfOk};
ghost use Rattle.scan_core.specs.declared.limits.TheConstants.{SLOTS, TAKERS_MOST};
ghost use Rattle.scan_core.specs.declared.slot.Slot.{Slot};
ghost use Rattle.scan_core.specs.Changes.{AreBlank, CollectedAt, EnteredAt, StoppedAt};
ghost use Rattle.scan_core.specs.Delivering.{AllOwed, AreTasked, PaidAll};
ghost use Rattle.scan_core.specs.Rest.{IsAtRest, RestOutside};
ghost use Rattle.scan_core.specs.Slots.{running_below};
ghost use Rattle.scan_core.specs.Taking.{CanServe, least_from, PoppedAll, served};

use crate::deliveries::pay_all;
use crate::limits::TAKERS_MOST;
use crate::next::{least_step, pop_all, takers_at, takers_set};
use crate::slot::Slot;
use crate::slots::{blank_slots, collect_at, enter_at, running_in, runs_at, stop_at};
use arrayvec::ArrayVec;
use scan_rules::QuerySet;
use sky_io::Memory;
use std::alloc::Global;
use std::marker::Model;

/// All slots. Those before `from`, and those from `to` on, are at rest.
#[derive(Drop)]
pub struct SlotTable {
    slots: Vec<Slot>,
    from: usize,
    to: usize,
}

impl Model for SlotTable {
    ghost use Rattle.std.specs.Prelude.{List};
    ghost use Rattle.scan_core.specs.declared.slot.Slot.{Slot};
    ghost use Rattle.scan_core.specs.Rest.{RestOutside};

    ghost Value = { List Slot };

    ghost view = { λ t. t.slots.items };

    ghost invariant = { λ t. RestOutside t.slots.items t.from t.to };
}

/// Returns true only if the query does not run and needs no chunk.
fn is_at_rest(slots: &Vec<Slot>, q: usize) -> bool
    requires full { length slots.now.items ≡ SLOTS }
    requires low { q < SLOTS }
    ensures { result ≡ true → (d : Slot) → IsAtRest (get_or slots.now.items q d) }
{
    !runs_at(slots, q as u32) && slots[q].ahead.is_empty()
}

/// Returns the number of the first slot in a range that is not at rest, or the range's end.
fn first_in_use(slots: &Vec<Slot>, from: usize, to: usize) -> usize
    requires { RestOutside slots.now.items from to }
    ensures { RestOutside slots.now.items result to }
{
    for q in from..to {
        if !is_at_rest(slots, q) {
            return q;
        }
    }
    to
}

/// Returns the number after the last slot in a range that is not at rest, or the range's start.
fn end_of_use(slots: &Vec<Slot>, from: usize, to: usize) -> usize
    requires { RestOutside slots.now.items from to }
    ensures { RestOutside slots.now.items from result }
{
    for n in 0..to - from {
        let end = to - n;
        if !is_at_rest(slots, end - 1) {
            return end;
        }
    }
    from
}

/// Returns the start of the least range that contains a given range, if that is not empty, and a slot.
fn start_with(from: usize, to: usize, q: usize) -> usize
    ensures low { result ≤ q }
    ensures covers { from < to → result ≤ from }
{
    if from < to { from.min(q) } else { q }
}

/// Returns the end of the least range that contains a given range, if that is not empty, and a slot.
fn end_with(from: usize, to: usize, q: usize) -> usize
    requires high { to ≤ SLOTS }
    requires below { q < SLOTS }
    ensures past { q < result }
    ensures covers { from < to → to ≤ result }
    ensures high { result ≤ SLOTS }
{
    if from < to { to.max(q + 1) } else { q + 1 }
}

impl SlotTable {
    /// Creates the slots of a new board. Allocates memory.
    pub fn blank(alloc: Global) -> Result<SlotTable, Memory>
        ensures { IfOk result (λ table. AreBlank table SLOTS) }
    {
        let slots = blank_slots(alloc)?;
        Ok(SlotTable {
            slots,
            from: 0,
            to: 0,
        })
    }

    /// Returns all slots.
    pub fn list(&self) -> &Vec<Slot>
        ensures items { result.now.items ≡ self.now }
        ensures full { length result.now.items ≡ SLOTS }
    {
        &self.slots
    }

    /// Returns how many steps away the next needed chunk is, or the ring's length if none is needed.
    pub fn least_step(&self, ring: u32, place: u32) -> u32
        requires { place ≤ ring }
        ensures { result ≡ least_from ring place ring self.now }
    {
        least_step(&self.slots, self.from, self.to, ring, place)
    }

    /// Returns the queries that need this chunk next, ascending.
    pub fn takers(&self, chunk: u32) -> ArrayVec<u32, TAKERS_MOST>
        requires { CanServe self.now chunk }
        ensures { (d : Slot) → result.items ≡ served self.now d chunk SLOTS }
    {
        takers_at(&self.slots, self.from, self.to, chunk)
    }

    /// Returns the queries that need this chunk next, as a set.
    pub fn takers_set(&self, chunk: u32) -> QuerySet
        requires { CanServe self.now chunk }
        ensures { (d : Slot) → result ≡ served self.now d chunk SLOTS }
    {
        takers_set(&self.slots, self.from, self.to, chunk)
    }

    /// Returns how many queries run.
    pub fn running(&self) -> u32
        ensures { (d : Slot) → result ≡ running_below self.now d SLOTS }
    {
        running_in(&self.slots, self.from, self.to)
    }

    /// Attaches the query: it is owed the given number of chunks, and needs those in `ahead`.
    pub fn attach(&mut self, q: usize, owed: u32, ahead: Vec<u32>)
        requires { q < SLOTS }
        ensures { EnteredAt owed ahead.items self.old self.new q }
    {
        let from = first_in_use(&self.slots, self.from, self.to);
        let to = end_of_use(&self.slots, from, self.to);
        self.from = start_with(from, to, q);
        self.to = end_with(from, to, q);
        enter_at(&mut self.slots, q, owed, ahead);
    }

    /// Cancels the query, which then needs nothing more.
    pub fn cancel(&mut self, q: usize)
        requires { q < SLOTS }
        ensures { StoppedAt self.old self.new q }
    {
        stop_at(&mut self.slots, q);
    }

    /// Marks the query as collected.
    pub fn collect(&mut self, q: usize)
        requires { q < SLOTS }
        ensures { CollectedAt self.old self.new q }
    {
        collect_at(&mut self.slots, q);
    }

    /// Removes the chunk from those that a query needs, for each query that needs it next.
    pub fn take(&mut self, chunk: u32)
        ensures { PoppedAll chunk self.old self.new SLOTS }
    {
        pop_all(&mut self.slots, self.from, self.to, chunk);
    }

    /// Counts one more chunk as delivered to each query of a task; a lost query needs nothing more.
    pub fn deliver(&mut self, queries: &[u32], lost: &QuerySet)
        requires tasked { AreTasked queries.now }
        requires owed { AllOwed self.old queries.now }
        ensures { PaidAll queries.now lost.now self.old self.new (length queries.now) }
    {
        pay_all(&mut self.slots, queries, lost);
    }
}
