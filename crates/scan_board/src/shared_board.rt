//! A board that participants share.
//!
//! Between two calls of a participant others may call too, so a participant knows only a prefix of the journal: what it
//! had seen when it left last. A call takes the lock and finds the whole journal. It extends what was seen, and its
//! lines with the participant's own number are exactly those that the participant made. The board is called on that
//! journal. When the participant leaves, it has seen all of the journal, and the call's own line if there is one.
ghost use Rattle.std.specs.Prelude.{◌≡◌, ◌≢◌, ◌-◌, ◌<◌, ◌≤◌, ◌^◌, [], All, IfOk};
ghost use mathlib.Core.List.{IsPrefix};
ghost use Rattle.scan_rules.specs.declared.limits.TheConstants.{QUERY_MOST};
ghost use Rattle.scan_rules.specs.Lines.{seat_of};
ghost use Rattle.scan_core.specs.Answers.{AnswersAttach, AnswersTake, AnswersCollect, IfTask};
ghost use Rattle.scan_core.specs.Delivering.{DeliversTask, PiecesFit};
ghost use Rattle.turn_lock.specs.Seats.{Knows, first_seat, joined_with, next_seat, one_more_made};
ghost use Rattle.scan_core.specs.Boards.{IsLawful};
ghost use Rattle.scan_board.specs.Calls.{AnswersCancel, AnswersClose, AnswersJournal, Called, HasTask};
ghost use Rattle.scan_board.specs.Calls.{IsAskedFor, IsOwed};

use scan_core::{Attach, Board, BoardRoot, ChunkSet, Collect, Journal, Take, Task, Work};
use sky_io::Memory;
use std::alloc::Global;
use std::marker::Model;
use std::sync::Wait;
use turn_lock::{Seat, Turn};

/// A board under a lock. The identity of the lock is visible to contracts.
#[derive(Drop)]
pub struct SharedBoard<P: Work> {
    turn: Turn<Board<P>>,
}

impl<P: Work> Model for SharedBoard<P> {
    ghost use Rattle.atomic_table.specs.Seated.{TableId};

    ghost Value = { TableId };

    ghost view = { λ b. b.turn };
}

impl<P: Work> SharedBoard<P> {
    /// Creates a shared board without lines, and its participant 0. Allocates memory. On Memory the board is dropped.
    pub fn new(alloc: Global, board: Board<P>) -> Result<(SharedBoard<P>, Seat<Board<P>>), Memory>
        requires { board.past ≡ [] }
        ensures first { IfOk result (λ r.
            r.1 ≡ first_seat r.0 (record { root = board.root; ring = board.ring })) }
        ensures lawful { IsLawful P.asks board }
    {
        // the contract of `ring` gives that the board is lawful
        let _ring = board.ring();
        let (turn, seat) = Turn::new(alloc, board)?;
        Ok((SharedBoard { turn }, seat))
    }

    /// Attaches a query, as the board does. Waits for the lock. Allocates memory.
    pub fn attach<R: Wait>(
        &self,
        rt: &R,
        seat: Seat<Board<P>>,
        q: u32,
        chunks: ChunkSet,
        empty: P,
    ) -> (Attach<P>, Seat<Board<P>>)
        requires own { seat.turn ≡ self.now }
        requires from_1 { 1 ≤ q }
        requires to_255 { q ≤ QUERY_MOST }
        requires in_ring { All (λ chunk. chunk < seat.root.ring) chunks }
        requires asked { All (P.asks seat.root.root q) chunks }
        requires nothing { P.stands seat.root.root q [] empty }
        ensures called { Called P.asks
            (λ before after. AnswersAttach seat.number before q chunks empty result.0 after)
            seat result.1 }
    {
        let number = seat.number();
        let mut pass = self.turn.enter(rt, seat);
        let attached = pass.value().attach(number, q, chunks, empty);
        (attached, pass.leave())
    }

    /// Hands out the next chunk of the lap, as the board does. Waits for the lock. Does not allocate.
    pub fn take<R: Wait>(&self, rt: &R, seat: Seat<Board<P>>) -> (Take, Seat<Board<P>>)
        requires own { seat.turn ≡ self.now }
        ensures called { Called P.asks
            (λ before after. AnswersTake seat.number before result.0 after) seat result.1 }
        ensures holds { IfTask result.0 (λ task. HasTask result.1 task) }
        ensures asked { IfTask result.0 (λ task. IsAskedFor P.asks seat task) }
    {
        let number = seat.number();
        let mut pass = self.turn.enter(rt, seat);
        let taken = pass.value().take(number);
        (taken, pass.leave())
    }

    /// Absorbs the pieces of a task, as the board does. Waits for the lock. Only absorbing allocates memory.
    pub fn deliver<R: Wait>(
        &self,
        rt: &R,
        seat: Seat<Board<P>>,
        task: Task,
        pieces: Vec<Option<P>>,
    ) -> Seat<Board<P>>
        requires own { seat.turn ≡ self.now }
        requires holds { HasTask seat task }
        requires stand { PiecesFit (P.stands seat.root.root) task.chunk task.queries pieces.items }
        ensures called { Called P.asks
            (λ before after. DeliversTask P.refuses seat.number task pieces.items before after)
            seat result }
    {
        let number = seat.number();
        let mut pass = self.turn.enter(rt, seat);
        deliver_owed(pass.value(), number, task, pieces);
        pass.leave()
    }

    /// Cancels a running query. Returns true exactly if it ran. Waits for the lock. Does not allocate.
    pub fn cancel<R: Wait>(&self, rt: &R, seat: Seat<Board<P>>, q: u32) -> (bool, Seat<Board<P>>)
        requires own { seat.turn ≡ self.now }
        ensures called { Called P.asks
            (λ before after. AnswersCancel seat.number before q result.0 after) seat result.1 }
    {
        let number = seat.number();
        let mut pass = self.turn.enter(rt, seat);
        let ran = pass.value().cancel(number, q);
        (ran, pass.leave())
    }

    /// Hands out the end of a query, once, as the board does. Waits for the lock. Does not allocate.
    pub fn collect<R: Wait>(
        &self,
        rt: &R,
        seat: Seat<Board<P>>,
        q: u32,
    ) -> (Collect<P>, Seat<Board<P>>)
        requires own { seat.turn ≡ self.now }
        ensures called { Called P.asks
            (λ before after. AnswersCollect P.stands seat.number before q result.0 after)
            seat result.1 }
    {
        let number = seat.number();
        let mut pass = self.turn.enter(rt, seat);
        let end = pass.value().collect(number, q);
        (end, pass.leave())
    }

    /// Closes the board: no query can be attached from then on. Waits for the lock. Does not allocate.
    pub fn close<R: Wait>(&self, rt: &R, seat: Seat<Board<P>>) -> Seat<Board<P>>
        requires own { seat.turn ≡ self.now }
        ensures called { Called P.asks (AnswersClose seat.number) seat result }
    {
        let number = seat.number();
        let mut pass = self.turn.enter(rt, seat);
        pass.value().close(number);
        pass.leave()
    }

    /// Copies the number of chunks and the journal, which is what the participant has seen afterwards. Adds no line.
    /// Waits for the lock. Allocates memory.
    pub fn journal<R: Wait>(
        &self,
        rt: &R,
        seat: Seat<Board<P>>,
    ) -> (Result<Journal, Memory>, Seat<Board<P>>)
        requires own { seat.turn ≡ self.now }
        ensures called { Called P.asks (AnswersJournal result.0) seat result.1 }
    {
        let mut pass = self.turn.enter(rt, seat);
        let journal = pass.value().journal();
        (journal, pass.leave())
    }

    /// Makes one more participant, with the next number, out of participant 0. Does not allocate.
    pub fn split(&self, seat: &mut Seat<Board<P>>) -> Seat<Board<P>>
        requires own { seat.old.turn ≡ self.now }
        requires first { seat.old.number ≡ 0 }
        requires room { seat.old.made < 2 ^ 32 - 1 }
        ensures kept { seat.new ≡ one_more_made seat.old }
        ensures next { result ≡ next_seat seat.old }
        ensures known { Knows seat_of seat.new × Knows seat_of result }
    {
        self.turn.split(seat)
    }

    /// Ends another participant in this one, which has then seen the longer of both journals. Does not allocate.
    pub fn join(&self, seat: &mut Seat<Board<P>>, other: Seat<Board<P>>)
        requires own { (seat.old.turn ≡ self.now) × (other.turn ≡ self.now) }
        requires not_first { other.number ≢ 0 }
        ensures joined { seat.new ≡ joined_with seat.old other }
        ensures own_seen { IsPrefix seat.old.seen seat.new.seen }
        ensures other_seen { IsPrefix other.seen seat.new.seen }
        ensures known { Knows seat_of seat.new }
    {
        self.turn.join(seat, other)
    }
}

/// Delivers a task that the participant's own lines do not deliver.
fn deliver_owed<P: Work>(board: &mut Board<P>, seat: u32, task: Task, pieces: Vec<Option<P>>)
    requires owed { IsOwed board.old.past seat task }
    requires stand { PiecesFit (P.stands board.old.root) task.chunk task.queries pieces.items }
    ensures delivered { DeliversTask P.refuses seat task pieces.items board.old board.new }
    ensures lawful { IsLawful P.asks board.new }
{
    // the contract of `ring` gives that the journal is a run: so no other participant can have delivered the task
    let _ring = board.ring();
    board.deliver(seat, task, pieces)
}
