//! The slots of a board: what they say of a query, and how each call changes them.
ghost use Rattle.std.specs.Prelude.{◌≡◌, ◌<◌, ◌≤◌, [], ◌∷◌, ◌++◌, length, get_or, false, cond, IfOk};
ghost use Rattle.scan_core.specs.declared.limits.TheConstants.{SLOTS};
ghost use Rattle.scan_core.specs.declared.slot.Slot.{Slot};
ghost use Rattle.scan_core.specs.Slots.{runs, running_below, waits};
ghost use Rattle.scan_core.specs.Changes.{AreBlank, CollectedAt, EnteredAt, IsBlank, StoppedAt};
ghost use Rattle.scan_core.specs.Rest.{RestOutside};

use crate::limits::SLOTS;
use crate::slot::Slot;
use sky_io::Memory;
use std::alloc::Global;

/// Returns whether the query runs. A query without a slot does not.
pub fn runs_at(slots: &Vec<Slot>, q: u32) -> bool
    requires full { length slots.now.items ≡ SLOTS }
    ensures known { q < SLOTS → (d : Slot) → result ≡ runs (get_or slots.now.items q d) }
    ensures beyond { SLOTS ≤ q → result ≡ false }
{
    if q >= SLOTS as u32 {
        return false;
    }
    let slot = &slots[q as usize];
    slot.attached && !slot.cancelled && !slot.lost && slot.owed > 0
}

/// Returns whether the query was attached and not collected. A query without a slot was not.
pub fn waits_at(slots: &Vec<Slot>, q: u32) -> bool
    requires full { length slots.now.items ≡ SLOTS }
    ensures known { q < SLOTS → (d : Slot) → result ≡ waits (get_or slots.now.items q d) }
    ensures beyond { SLOTS ≤ q → result ≡ false }
{
    if q >= SLOTS as u32 {
        return false;
    }
    let slot = &slots[q as usize];
    slot.attached && !slot.collected
}

/// Returns whether the query was cancelled.
pub fn cancelled_at(slots: &Vec<Slot>, q: usize) -> bool
    requires { q < length slots.now.items }
    ensures { (d : Slot) → result ≡ (get_or slots.now.items q d).cancelled }
{
    let slot = &slots[q];
    slot.cancelled
}

/// Returns whether the query was lost.
pub fn lost_at(slots: &Vec<Slot>, q: usize) -> bool
    requires { q < length slots.now.items }
    ensures { (d : Slot) → result ≡ (get_or slots.now.items q d).lost }
{
    let slot = &slots[q];
    slot.lost
}

/// Cancels the query, which then needs nothing more.
pub fn stop_at(slots: &mut Vec<Slot>, q: usize)
    requires { q < length slots.old.items }
    ensures { StoppedAt slots.old.items slots.new.items q }
{
    let slot = &mut slots[q];
    slot.cancelled = true;
    slot.ahead.clear();
}

/// Marks the query as collected.
pub fn collect_at(slots: &mut Vec<Slot>, q: usize)
    requires { q < length slots.old.items }
    ensures { CollectedAt slots.old.items slots.new.items q }
{
    let slot = &mut slots[q];
    slot.collected = true;
}

/// Returns whether the query was attached.
pub fn attached_at(slots: &Vec<Slot>, q: usize) -> bool
    requires { q < length slots.now.items }
    ensures { (d : Slot) → result ≡ (get_or slots.now.items q d).attached }
{
    let slot = &slots[q];
    slot.attached
}

/// Returns 1 if the query runs, else 0.
fn count_at(slots: &Vec<Slot>, q: u32) -> u32
    requires full { length slots.now.items ≡ SLOTS }
    requires low { q < SLOTS }
    ensures count { (d : Slot) → result ≡ cond (runs (get_or slots.now.items q d)) 1 0 }
    ensures one { result ≤ 1 }
{
    if runs_at(slots, q) { 1 } else { 0 }
}

/// Returns how many queries run.
pub fn running_in(slots: &Vec<Slot>, from: usize, to: usize) -> u32
    requires rest { RestOutside slots.now.items from to }
    ensures { (d : Slot) → result ≡ running_below slots.now.items d SLOTS }
{
    let mut count = 0u32;
    for q in from..to {
        count += count_at(slots, q as u32);
    }
    count
}

/// Attaches the query: it is owed the given number of chunks, and needs those in `ahead`.
pub fn enter_at(slots: &mut Vec<Slot>, q: usize, owed: u32, ahead: Vec<u32>)
    requires { q < length slots.old.items }
    ensures { EnteredAt owed ahead.items slots.old.items slots.new.items q }
{
    let slot = &mut slots[q];
    slot.attached = true;
    slot.owed = owed;
    slot.ahead = ahead;
}

/// Appends a slot of no query. Allocates memory.
fn push_blank(alloc: Global, slots: &mut Vec<Slot>) -> Result<(), Memory>
    ensures { IfOk result (λ _. (slot : Slot)
        × (slots.new.items ≡ slots.old.items ++ slot ∷ []) × IsBlank slot) }
{
    let blank = Slot {
        attached: false,
        cancelled: false,
        lost: false,
        collected: false,
        owed: 0,
        ahead: Vec::new(alloc),
    };
    Ok(slots.push(blank)?)
}

/// Creates the slots of a new board. Allocates memory.
pub fn blank_slots(alloc: Global) -> Result<Vec<Slot>, Memory>
    ensures { IfOk result (λ slots. AreBlank slots.items SLOTS) }
{
    let mut slots = Vec::new(alloc);
    for turn in 0..SLOTS {
        push_blank(alloc, &mut slots)?;
    }
    Ok(slots)
}
