//! The board of the shared scan.
//!
//! A query is attached with the chunks that it wants. The scan goes round the ring of chunks. Each take hands out the
//! next chunk that some running query still needs, for all such queries at once. A query that is attached in mid-lap is
//! served the chunks that it missed on the next lap. A task is delivered with a piece for each of its queries, and a
//! query that has all its chunks is done. The journal has a line for each call that changed something, and each field
//! is defined as a function of it (`specs/Kept.antt`).
ghost use Rattle.std.specs.Prelude.{◌≡◌, ◌<◌, ◌≤◌, ◌+◌, ◌*◌, [], All, IfOk, IsTrue, true, false, vec_capacity};
ghost use Rattle.scan_rules.specs.declared.journal_line.JournalLine.TheVariants.{Cancel as CancelLine};
ghost use Rattle.scan_rules.specs.declared.journal_line.JournalLine.TheVariants.{Close as CloseLine};
ghost use Rattle.scan_rules.specs.declared.limits.TheConstants.{LINES_BOUND, QUERY_MOST, RING_MOST, RUNNING_MOST};
ghost use Rattle.scan_rules.specs.Lines.{seat_of};
ghost use Rattle.scan_rules.specs.Queries.{is_closed, is_running};
ghost use Rattle.scan_core.specs.Boards.{gains, IsLawful};
ghost use Rattle.scan_core.specs.Answers.{AnswersAttach, AnswersTake, AnswersCollect, IfTask};
ghost use Rattle.scan_core.specs.Delivering.{DeliversTask, InFlight, PiecesFit};

use crate::ahead::ahead_of;
use crate::answers::{Attach, Collect, Take};
use crate::board_root::BoardRoot;
use crate::deliveries::hand_all;
use crate::next::chunk_at;
use crate::pieces::{end_of, no_pieces, put_at, take_at};
use crate::slot_table::SlotTable;
use crate::slots::{attached_at, cancelled_at, lost_at, runs_at, waits_at};
use crate::task::Task;
use crate::work::Work;
use scan_rules::limits::{QUERY_MOST, RUNNING_MOST};
use scan_rules::{ChunkSet, Journal, JournalLine, JournalLines};
use sky_io::{Lineage, Memory};
use std::alloc::Global;
use std::marker::Model;

/// A board over a ring of chunks, numbered from 0. The root is stored and never inspected.
#[derive(Drop)]
pub struct Board<P: Work> {
    root: P::Root,
    ring: u32,
    /// The chunk at which the scan continues.
    place: u32,
    /// The number of takes so far, which is the next ticket.
    tickets: u32,
    /// The number of tasks that are taken and not delivered.
    flights: u32,
    closed: bool,
    /// The slots, one for each query number, and one for 0, which is no query's.
    slots: SlotTable,
    /// The piece of each query, by its number.
    pieces: Vec<Option<P>>,
    journal: Vec<JournalLine>,
}

impl<P: Work> Model for Board<P> {
    ghost use Rattle.scan_core.specs.Boards.{BoardState};

    ghost Value = { BoardState P.Root };

    ghost use Rattle.std.specs.Prelude.{vec_capacity};
    ghost use Rattle.scan_core.specs.Stored.{Stored};

    ghost view = { λ b. record { root = b.root; ring = b.ring; past = b.journal.items } };

    ghost invariant = { λ b. Stored (P.asks b.root) (P.stands b.root)
        b.ring b.place b.tickets b.flights b.closed b.slots b.pieces.items
        (vec_capacity b.journal) b.journal.items };
}

impl<P: Work> Board<P> {
    /// Creates a board without queries over a ring of the given number of chunks. Allocates memory. On `Err` the root
    /// is dropped.
    pub fn new(alloc: Global, ring: u32, root: P::Root) -> Result<Board<P>, Memory>
        requires { ring ≤ RING_MOST }
        ensures board { IfOk result (λ board.
            board ≡ record { root = root; ring = ring; past = [] }) }
        ensures lawful { IfOk result (λ board. IsLawful P.asks board) }
    {
        let slots = SlotTable::blank(alloc)?;
        let pieces = no_pieces(alloc)?;
        let journal = room_for_close(alloc)?;
        Ok(Board {
            root,
            ring,
            place: 0,
            tickets: 0,
            flights: 0,
            closed: false,
            slots,
            pieces,
            journal,
        })
    }

    /// Returns the number of chunks. Its contract also states that the journal is a run over them and the root. Does
    /// not allocate.
    pub fn ring(&self) -> u32
        ensures ring { result ≡ self.now.ring }
        ensures lawful { IsLawful P.asks self.now }
    {
        self.ring
    }

    /// Copies the number of chunks and the lines so far. Allocates memory.
    pub fn journal(&self) -> Result<Journal, Memory>
        ensures journal { IfOk result (λ journal.
            journal ≡ record { ring = self.now.ring; lines = self.now.past }) }
        ensures lawful { IsLawful P.asks self.now }
    {
        let lines = JournalLines::copy_of(*self.journal.allocator(), self.journal.as_slice())?;
        Ok(Journal {
            ring: self.ring,
            lines,
        })
    }

    /// Attaches a query with the chunks that it wants and an empty piece. Allocates memory, also for the lines of later
    /// calls.
    pub fn attach(&mut self, seat: u32, q: u32, chunks: ChunkSet, empty: P) -> Attach<P>
        requires from_1 { 1 ≤ q }
        requires to_255 { q ≤ QUERY_MOST }
        requires in_ring { All (λ chunk. chunk < self.old.ring) chunks }
        requires asked { All (P.asks self.old.root q) chunks }
        requires nothing { P.stands self.old.root q [] empty }
        ensures answer { AnswersAttach seat self.old q chunks empty result self.new }
        ensures lawful { IsLawful P.asks self.new }
    {
        if self.closed {
            return Attach::Closed { chunks, empty };
        }
        if attached_at(self.slots.list(), q as usize) {
            return Attach::Again { chunks, empty };
        }
        if self.slots.running() >= RUNNING_MOST {
            return Attach::Full { chunks, empty };
        }
        let list = chunks.as_slice();
        let owed = list.len() as u32;
        let Ok(ahead) = ahead_of(*self.journal.allocator(), self.place, list) else {
            return Attach::Memory { chunks, empty };
        };
        let room = room_after_attach(self.ring, self.flights);
        if self.journal.reserve(room).is_err() {
            return Attach::Memory { chunks, empty };
        }
        self.journal
            .push_reserved(JournalLine::Attach { seat, q, chunks });
        self.slots.attach(q as usize, owed, ahead);
        put_at(&mut self.pieces, q as usize, empty);
        Attach::Attached
    }

    /// Closes the board: no query can be attached from then on. A second close changes nothing. Does not allocate.
    pub fn close(&mut self, seat: u32)
        ensures first { is_closed self.old.past ≡ false
            → self.new ≡ gains self.old (CloseLine seat) }
        ensures second { is_closed self.old.past ≡ true → self.new ≡ self.old }
        ensures lawful { IsLawful P.asks self.new }
    {
        if self.closed {
            return;
        }
        self.journal.push_reserved(JournalLine::Close { seat });
        self.closed = true;
    }

    /// Cancels a running query. Returns true exactly if it ran. Does not allocate.
    pub fn cancel(&mut self, seat: u32, q: u32) -> bool
        ensures ran { result ≡ is_running self.old.past q }
        ensures cancelled { IsTrue result → self.new ≡ gains self.old (CancelLine seat q) }
        ensures same { result ≡ false → self.new ≡ self.old }
        ensures lawful { IsLawful P.asks self.new }
    {
        if !runs_at(self.slots.list(), q) {
            return false;
        }
        self.journal.push_reserved(JournalLine::Cancel { seat, q });
        self.slots.cancel(q as usize);
        let _dropped = take_at(&mut self.pieces, q as usize);
        true
    }

    /// Hands out the next chunk of the lap, for all queries that need it. Does not allocate.
    pub fn take(&mut self, seat: u32) -> Take
        ensures answer { AnswersTake seat self.old result self.new }
        ensures flies { IfTask result (λ task. InFlight self.new.past seat task) }
        ensures lawful { IsLawful P.asks self.new }
    {
        let step = self.slots.least_step(self.ring, self.place);
        if step >= self.ring {
            if self.closed {
                return Take::Ended;
            }
            return Take::Idle;
        }
        let chunk = chunk_at(self.ring, self.place, step);
        let queries = self.slots.takers(chunk);
        let set = self.slots.takers_set(chunk);
        let ticket = self.tickets;
        self.journal.push_reserved(JournalLine::Take {
            seat,
            ticket,
            chunk,
            queries: set,
        });
        self.slots.take(chunk);
        self.place = chunk_at(self.ring, chunk, 1);
        self.tickets = ticket + 1;
        self.flights += 1;
        Take::Task(Task::new(ticket, chunk, queries))
    }

    /// Hands out the end of a query, once. The end of a query that is done is its piece. Does not allocate.
    pub fn collect(&mut self, seat: u32, q: u32) -> Collect<P>
        ensures answer { AnswersCollect P.stands seat self.old q result self.new }
        ensures lawful { IsLawful P.asks self.new }
    {
        if runs_at(self.slots.list(), q) {
            return Collect::NotYet;
        }
        if !waits_at(self.slots.list(), q) {
            return Collect::Gone;
        }
        let cancelled = cancelled_at(self.slots.list(), q as usize);
        let lost = lost_at(self.slots.list(), q as usize);
        self.journal.push_reserved(JournalLine::Collect { seat, q });
        self.slots.collect(q as usize);
        let piece = take_at(&mut self.pieces, q as usize);
        end_of(cancelled, lost, piece)
    }

    /// Absorbs the pieces of a task; the piece at a position belongs to the query at the same position. A running query
    /// is lost exactly if it has no piece, or if its piece cannot be absorbed for lack of memory. The pieces of other queries
    /// are dropped. Only absorbing allocates memory.
    pub fn deliver(&mut self, seat: u32, task: Task, pieces: Vec<Option<P>>)
        requires in_flight { InFlight self.old.past seat task }
        requires stand { PiecesFit (P.stands self.old.root) task.chunk task.queries pieces.items }
        ensures delivered { DeliversTask P.refuses seat task pieces.items self.old self.new }
        ensures lawful { IsLawful P.asks self.new }
    {
        let lost = hand_all(self.slots.list(), &mut self.pieces, task.queries(), pieces);
        self.journal.push_reserved(JournalLine::Deliver {
            seat,
            ticket: task.ticket(),
            lost,
        });
        self.slots.deliver(task.queries(), &lost);
        self.flights -= 1;
    }
}

impl<P: Work> Lineage for Board<P> {
    type Root = BoardRoot<P::Root>;

    type Entry = JournalLine;

    ghost root = { λ board. record { root = board.root; ring = board.ring } };

    ghost past = { λ board. board.past };

    ghost seat_of = { seat_of };

    fn past_len(&self) -> u64 {
        self.journal.len() as u64
    }
}

/// Creates an empty journal with room for a Close. Allocates memory.
fn room_for_close(alloc: Global) -> Result<Vec<JournalLine>, Memory>
    ensures { IfOk result (λ journal. (journal.items ≡ []) × (1 ≤ vec_capacity journal)) }
{
    let mut journal = Vec::new(alloc);
    journal.reserve(1)?;
    Ok(journal)
}

/// Returns how many lines may be written by an Attach and after it, until the next one. They are the Attach; a Take and
/// a Deliver for each chunk of the ring; a Deliver for each task in flight; a Cancel for each running query; a Collect
/// for each slot; and a Close.
fn room_after_attach(ring: u32, flights: u32) -> usize
    requires small { ring ≤ RING_MOST }
    requires few { flights < LINES_BOUND }
    ensures { result ≡ RUNNING_MOST + QUERY_MOST + 3 + 2 * ring + flights }
{
    3 + 2 * ring as usize + flights as usize + RUNNING_MOST as usize + QUERY_MOST as usize
}
