//! The replay of a journal: a board without partial results that is given its lines.
//!
//! The slots decide whether a line may follow, through the functions that the board's own calls use. A Take may follow
//! exactly if it is the take that a board would hand out now, and so for each other line. A board learns from a task
//! which take is delivered. A replay has a record of each take, at the position of its ticket.
ghost use Rattle.std.specs.Prelude.{◌≡◌, ◌<◌, ◌≤◌, [], length, nat_lt, IfOk, OnErr, true, false};
ghost use Rattle.std.specs.List.{list_all};
ghost use Rattle.scan_rules.specs.declared.journal_line.JournalLine.{JournalLine};
ghost use Rattle.scan_rules.specs.declared.journal_line.JournalLine.TheVariants.{Attach as AttachLine};
ghost use Rattle.scan_rules.specs.declared.journal_line.JournalLine.TheVariants.{Take as TakeLine};
ghost use Rattle.scan_rules.specs.declared.journal_line.JournalLine.TheVariants.{Deliver as DeliverLine};
ghost use Rattle.scan_rules.specs.declared.journal_line.JournalLine.TheVariants.{Cancel as CancelLine};
ghost use Rattle.scan_rules.specs.declared.journal_line.JournalLine.TheVariants.{Collect as CollectLine};
ghost use Rattle.scan_rules.specs.declared.journal_line.JournalLine.TheVariants.{Close as CloseLine};
ghost use Rattle.scan_rules.specs.declared.limits.TheConstants.{RING_MOST};
ghost use Rattle.scan_rules.specs.Runs.{MayAttach};
ghost use Rattle.scan_core.specs.declared.limits.TheConstants.{SLOTS};
ghost use Rattle.scan_core.specs.declared.slot.Slot.{Slot};
ghost use Rattle.scan_core.specs.Replays.{IsNext, Decides, DeliveredAt, runs_among};

use crate::ahead::ahead_of;
use crate::limits::SLOTS;
use crate::next::chunk_at;
use crate::slot::Slot;
use crate::slot_table::SlotTable;
use crate::slots::{attached_at, runs_at, waits_at};
use crate::take_record::TakeRecord;
use scan_rules::limits::{QUERY_MOST, RUNNING_MOST};
use scan_rules::{ChunkSet, JournalLine, QuerySet};
use sky_io::Memory;
use std::alloc::Global;
use std::marker::Model;

/// The lines of a journal, of which the first ones were replayed. Each of those may follow the lines before it.
#[derive(Drop)]
pub struct Replay<'a> {
    ring: u32,
    lines: &'a [JournalLine],
    done: usize,
    /// The chunk at which the scan continues.
    place: u32,
    closed: bool,
    slots: SlotTable,
    /// A record of each take, at the position of its ticket.
    taken: Vec<TakeRecord>,
}

impl<'a> Model for Replay<'a> {
    ghost use Rattle.std.specs.Prelude.{length};
    ghost use Rattle.scan_core.specs.Replays.{ReplayState, IsReplayed, shown};

    ghost Value = { ReplayState };

    ghost view = { λ r. shown r.ring r.lines.now r.done };

    ghost invariant = { λ r. IsReplayed r.ring r.lines.now r.done r.place r.closed r.slots r.taken.items };
}

/// Returns whether each chunk is below the length of the ring.
fn all_below(chunks: &[u32], ring: u32) -> bool
    ensures { result ≡ list_all (λ chunk. nat_lt chunk ring) chunks.now }
{
    chunks.iter().all(|chunk| *chunk < ring)
}

/// Returns whether the query runs and is one of those of a take.
fn may_lose(slots: &Vec<Slot>, taken: &QuerySet, q: u32) -> bool
    requires full { length slots.now.items ≡ SLOTS }
    ensures { (d : Slot) → result ≡ runs_among slots.now.items taken.now d q }
{
    if q >= SLOTS as u32 {
        return false;
    }
    let runs = runs_at(slots, q);
    let named = taken.has(q);
    runs && named
}

/// Returns whether each of these queries runs and is one of those of a take.
fn may_lose_all(slots: &Vec<Slot>, taken: &QuerySet, lost: &[u32]) -> bool
    requires full { length slots.now.items ≡ SLOTS }
    ensures { (d : Slot) → result ≡ list_all (runs_among slots.now.items taken.now d) lost.now }
{
    for q in lost {
        if !may_lose(slots, taken, *q) {
            return false;
        }
    }
    true
}

/// Marks the take with this ticket as delivered.
fn deliver_at(taken: &mut Vec<TakeRecord>, ticket: usize)
    requires { ticket < length taken.old.items }
    ensures { DeliveredAt taken.old.items taken.new.items ticket }
{
    let it = &mut taken[ticket];
    it.delivered = true;
}

impl<'a> Replay<'a> {
    /// Creates the replay of a journal over a ring of the given number of chunks, before its first line. Allocates
    /// memory.
    pub fn new(alloc: Global, ring: u32, lines: &'a [JournalLine]) -> Result<Replay<'a>, Memory>
        requires { ring ≤ RING_MOST }
        ensures { IfOk result (λ replay.
            replay ≡ record { ring = ring; past = []; rest = lines.now }) }
    {
        let slots = SlotTable::blank(alloc)?;
        Ok(Replay {
            ring,
            lines,
            done: 0,
            place: 0,
            closed: false,
            slots,
            taken: Vec::new(alloc),
        })
    }

    /// Replays the next line, exactly if it may follow, and returns whether it did. After `false` and after `Err` nothing
    /// has changed. Allocates memory for an Attach and a Take.
    pub fn step(&mut self) -> Result<bool, Memory>
        requires left { 0 < length self.old.rest }
        ensures decided { IfOk result (λ may.
            (line : JournalLine) → IsNext line self.old → Decides line self.old may self.new) }
        ensures same { OnErr result (self.new ≡ self.old) }
    {
        let lines = self.lines;
        match &lines[self.done] {
            JournalLine::Attach { seat, q, chunks } => self.attach(*seat, *q, chunks),
            JournalLine::Take {
                seat,
                ticket,
                chunk,
                queries,
            } => self.take(*seat, *ticket, *chunk, queries),
            JournalLine::Deliver { seat, ticket, lost } => Ok(self.deliver(*seat, *ticket, lost)),
            JournalLine::Cancel { seat, q } => Ok(self.cancel(*seat, *q)),
            JournalLine::Collect { seat, q } => Ok(self.collect(*seat, *q)),
            JournalLine::Close { seat } => Ok(self.close(*seat)),
        }
    }

    /// Replays an Attach, exactly if the board is open, the query is fresh, fewer than 64 run, and the chunks are on the
    /// ring. Allocates memory.
    fn attach(&mut self, seat: u32, q: u32, chunks: &ChunkSet) -> Result<bool, Memory>
        requires { IsNext (AttachLine seat q chunks.now) self.old }
        ensures decided { IfOk result (λ may.
            Decides (AttachLine seat q chunks.now) self.old may self.new) }
        ensures same { OnErr result (self.new ≡ self.old) }
    {
        let list = chunks.as_slice();
        if !self.may_attach(q, list) {
            return Ok(false);
        }
        let owed = list.len() as u32;
        let ahead = ahead_of(*self.taken.allocator(), self.place, list)?;
        self.slots.attach(q as usize, owed, ahead);
        self.done += 1;
        Ok(true)
    }

    /// Returns whether the query may be attached with these chunks. Does not allocate.
    fn may_attach(&self, q: u32, chunks: &[u32]) -> bool
        ensures right { result ≡ true → MayAttach self.now.ring self.now.past q chunks.now }
        ensures wrong { result ≡ false → MayAttach self.now.ring self.now.past q chunks.now → ⊥ }
    {
        if self.closed {
            return false;
        }
        if q < 1 || q > QUERY_MOST {
            return false;
        }
        if attached_at(self.slots.list(), q as usize) {
            return false;
        }
        if self.slots.running() >= RUNNING_MOST {
            return false;
        }
        all_below(chunks, self.ring)
    }

    /// Replays a Take, exactly if it is the take that a board would hand out. Allocates memory.
    fn take(
        &mut self,
        seat: u32,
        ticket: u32,
        chunk: u32,
        queries: &QuerySet,
    ) -> Result<bool, Memory>
        requires { IsNext (TakeLine seat ticket chunk queries.now) self.old }
        ensures decided { IfOk result (λ may.
            Decides (TakeLine seat ticket chunk queries.now) self.old may self.new) }
        ensures same { OnErr result (self.new ≡ self.old) }
    {
        let step = self.slots.least_step(self.ring, self.place);
        if step >= self.ring {
            return Ok(false);
        }
        let next = chunk_at(self.ring, self.place, step);
        if next != chunk {
            return Ok(false);
        }
        if ticket as usize != self.taken.len() {
            return Ok(false);
        }
        let takers = self.slots.takers(next);
        let named = queries.list();
        if takers.as_slice() != named.as_slice() {
            return Ok(false);
        }
        self.taken.push(TakeRecord {
            seat,
            queries: *queries,
            delivered: false,
        })?;
        self.slots.take(next);
        self.place = chunk_at(self.ring, next, 1);
        self.done += 1;
        Ok(true)
    }

    /// Replays a Deliver, exactly if the participant has this ticket in flight, and each lost query runs and is of that
    /// take. Does not allocate.
    fn deliver(&mut self, seat: u32, ticket: u32, lost: &QuerySet) -> bool
        requires { IsNext (DeliverLine seat ticket lost.now) self.old }
        ensures { Decides (DeliverLine seat ticket lost.now) self.old result self.new }
    {
        if ticket as usize >= self.taken.len() {
            return false;
        }
        let it = &self.taken[ticket as usize];
        if it.seat != seat {
            return false;
        }
        if it.delivered {
            return false;
        }
        let queries = it.queries;
        let losing = lost.list();
        if !may_lose_all(self.slots.list(), &queries, losing.as_slice()) {
            return false;
        }
        let named = queries.list();
        self.slots.deliver(named.as_slice(), lost);
        deliver_at(&mut self.taken, ticket as usize);
        self.done += 1;
        true
    }

    /// Replays a Cancel, exactly if the query runs. Does not allocate.
    fn cancel(&mut self, seat: u32, q: u32) -> bool
        requires { IsNext (CancelLine seat q) self.old }
        ensures { Decides (CancelLine seat q) self.old result self.new }
    {
        if !runs_at(self.slots.list(), q) {
            return false;
        }
        self.slots.cancel(q as usize);
        self.done += 1;
        true
    }

    /// Replays a Collect, exactly if the query has ended and was not collected. Does not allocate.
    fn collect(&mut self, seat: u32, q: u32) -> bool
        requires { IsNext (CollectLine seat q) self.old }
        ensures { Decides (CollectLine seat q) self.old result self.new }
    {
        if runs_at(self.slots.list(), q) {
            return false;
        }
        if !waits_at(self.slots.list(), q) {
            return false;
        }
        self.slots.collect(q as usize);
        self.done += 1;
        true
    }

    /// Replays a Close, exactly if it is the first. Does not allocate.
    fn close(&mut self, seat: u32) -> bool
        requires { IsNext (CloseLine seat) self.old }
        ensures { Decides (CloseLine seat) self.old result self.new }
    {
        if self.closed {
            return false;
        }
        self.closed = true;
        self.done += 1;
        true
    }
}
