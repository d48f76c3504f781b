//! Which chunk the scan takes next, and for which queries. Both are read off the slots, whatever the ring's length.
//! The loops inspect the slots from `from` on and below `to`; all others are at rest.
ghost use Rattle.std.specs.Prelude.{◌≡◌, ℕ, ◌<◌, ◌≤◌, List, [], ◌∷◌, ◌++◌, length, get_or, true, cond, IfSome, None};
ghost use Rattle.std.specs.List.{last_or};
ghost use Rattle.scan_rules.specs.declared.limits.TheConstants.{RING_MOST};
ghost use Rattle.scan_rules.specs.Scan.{chunk_at, offset};
ghost use Rattle.scan_core.specs.declared.limits.TheConstants.{SLOTS, TAKERS_MOST};
ghost use Rattle.scan_core.specs.declared.slot.Slot.{Slot};
ghost use Rattle.scan_core.specs.Taking.{next_of, first_step, least_from, is_next, served, CanServe, Popped};
ghost use Rattle.scan_core.specs.Taking.{PoppedAt, PoppedAll};
ghost use Rattle.scan_core.specs.Rest.{RestOutside};

use crate::limits::TAKERS_MOST;
use crate::slot::Slot;
use arrayvec::ArrayVec;
use scan_rules::QuerySet;

/// Returns how many steps the scan makes from a position to a chunk, around the ring.
fn offset(ring: u32, place: u32, chunk: u32) -> u32
    requires low { place ≤ ring }
    ensures { result ≡ offset ring place chunk }
{
    if chunk < place {
        ring - place + chunk
    } else {
        chunk - place
    }
}

/// Returns the chunk that is the given number of steps after a position, around the ring.
pub fn chunk_at(ring: u32, place: u32, steps: u32) -> u32
    requires small { ring ≤ RING_MOST }
    requires low { place < ring }
    requires step { steps ≤ ring }
    ensures { result ≡ chunk_at ring place steps }
{
    if place + steps < ring {
        place + steps
    } else {
        place + steps - ring
    }
}

/// Returns the chunk that a query needs next.
fn next_of(slot: &Slot) -> Option<u32>
    ensures { result ≡ next_of slot.now }
{
    match slot.ahead.last() {
        None => None,
        Some(chunk) => Some(*chunk),
    }
}

/// Returns how many steps away the chunk is that a query needs next, or the ring's length if it needs none.
fn first_step(ring: u32, place: u32, slot: &Slot) -> u32
    requires { place ≤ ring }
    ensures { result ≡ first_step ring place slot.now }
{
    match next_of(slot) {
        None => ring,
        Some(chunk) => offset(ring, place, chunk),
    }
}

/// Returns how many steps away the next needed chunk is, or the ring's length if none is needed.
pub fn least_step(slots: &Vec<Slot>, from: usize, to: usize, ring: u32, place: u32) -> u32
    requires low { place ≤ ring }
    requires rest { RestOutside slots.now.items from to }
    ensures { result ≡ least_from ring place ring slots.now.items }
{
    let mut best = ring;
    for q in from..to {
        best = best.min(first_step(ring, place, &slots[q]));
    }
    best
}

/// Returns whether this chunk is the one that the query needs next.
fn is_next(slot: &Slot, chunk: u32) -> bool
    ensures { result ≡ is_next chunk slot.now }
{
    match next_of(slot) {
        None => false,
        Some(next) => next == chunk,
    }
}

/// Appends the query if it needs this chunk next.
fn add_next(queries: &mut ArrayVec<u32, TAKERS_MOST>, slot: &Slot, q: u32, chunk: u32)
    requires room { is_next chunk slot.now ≡ true → length queries.old.items < TAKERS_MOST }
    ensures { queries.new.items ≡ queries.old.items ++ cond (is_next chunk slot.now) (q ∷ []) [] }
{
    if is_next(slot, chunk) {
        queries.push(q);
    }
}

/// Returns the queries that need this chunk next, ascending.
pub fn takers_at(
    slots: &Vec<Slot>,
    from: usize,
    to: usize,
    chunk: u32,
) -> ArrayVec<u32, TAKERS_MOST>
    requires rest { RestOutside slots.now.items from to }
    requires few { CanServe slots.now.items chunk }
    ensures { (d : Slot) → result.items ≡ served slots.now.items d chunk SLOTS }
{
    let mut queries = ArrayVec::new();
    for q in from..to {
        add_next(&mut queries, &slots[q], q as u32, chunk);
    }
    queries
}

/// Adds the query to the set if it needs this chunk next.
fn note_next(queries: &mut QuerySet, slot: &Slot, q: u32, chunk: u32)
    requires from_1 { is_next chunk slot.now ≡ true → 1 ≤ q }
    requires to_255 { q < SLOTS }
    requires above { IfSome (last_or None queries.old) (λ last. last < q) }
    ensures { queries.new ≡ queries.old ++ cond (is_next chunk slot.now) (q ∷ []) [] }
{
    if is_next(slot, chunk) {
        queries.add(q);
    }
}

/// Returns the queries that need this chunk next, as a set.
pub fn takers_set(slots: &Vec<Slot>, from: usize, to: usize, chunk: u32) -> QuerySet
    requires rest { RestOutside slots.now.items from to }
    requires few { CanServe slots.now.items chunk }
    ensures { (d : Slot) → result ≡ served slots.now.items d chunk SLOTS }
{
    let mut queries = QuerySet::new();
    for q in from..to {
        note_next(&mut queries, &slots[q], q as u32, chunk);
    }
    queries
}

/// Removes the chunk from those that the query needs, if the query needs it next.
fn pop_next(slot: &mut Slot, chunk: u32)
    ensures { Popped chunk slot.old slot.new }
{
    if is_next(slot, chunk) {
        slot.ahead.pop();
    }
}

/// Does so for the query of one slot.
fn pop_at(slots: &mut Vec<Slot>, q: usize, chunk: u32)
    requires { q < length slots.old.items }
    ensures { PoppedAt chunk slots.old.items slots.new.items q }
{
    let slot = &mut slots[q];
    pop_next(slot, chunk);
}

/// Does so for each query that needs the chunk next.
pub fn pop_all(slots: &mut Vec<Slot>, from: usize, to: usize, chunk: u32)
    requires rest { RestOutside slots.old.items from to }
    ensures { PoppedAll chunk slots.old.items slots.new.items SLOTS }
{
    for q in from..to {
        pop_at(slots, q, chunk);
    }
}
