//! Two boards, one for each class of queries.
//!
//! Each call is that of a shared board, at the board of one class or at both. Each board has a journal of its own, so
//! all that holds of one board holds of each. The last chunk of a short query is taken within one lap over the chunks
//! that short queries want, counted in Takes of the short board, however many chunks long queries wait for.
ghost use Rattle.std.specs.Prelude.{◌≡◌, ◌≢◌, ◌-◌, ◌<◌, ◌≤◌, ◌^◌, [], All, IfOk};
ghost use mathlib.Core.List.{IsPrefix};
ghost use Rattle.scan_rules.specs.declared.limits.TheConstants.{QUERY_MOST};
ghost use Rattle.scan_rules.specs.Lines.{seat_of};
ghost use Rattle.scan_core.specs.Answers.{AnswersAttach, AnswersCollect};
ghost use Rattle.scan_core.specs.Boards.{IsLawful};
ghost use Rattle.scan_core.specs.Delivering.{DeliversTask, PiecesFit};
ghost use Rattle.turn_lock.specs.Seats.{Knows, first_seat, joined_with, next_seat, one_more_made};
ghost use Rattle.scan_board.specs.Calls.{AnswersCancel, AnswersClose, Called, HasTask};
ghost use Rattle.scan_classes.specs.Pairs.{class_of, seat_at};
ghost use Rattle.scan_classes.specs.ClassTakes.{AnswersClassTake, CalledAt, HasClassTask};

use crate::class::{Class, ClassTake};
use crate::pair::Pair;
use scan_board::{Attach, Board, ChunkSet, Collect, SharedBoard, Take, Task, Work};
use sky_io::Memory;
use std::alloc::Global;
use std::marker::Model;
use std::sync::Wait;

/// The short board, which runs the short queries, and the long board, which runs the others. Contracts see the
/// identities of their locks.
#[derive(Drop)]
pub struct Classes<P: Work> {
    short: SharedBoard<P>,
    long: SharedBoard<P>,
}

impl<P: Work> Model for Classes<P> {
    ghost use Rattle.scan_classes.specs.Pairs.{ClassTurns};

    ghost Value = { ClassTurns };

    ghost view = { λ c. record { short = c.short; long = c.long } };
}

impl<P: Work> Classes<P> {
    /// Puts two boards without lines, over one root and one ring, under locks, and makes the first pair. Allocates
    /// memory. On Memory both boards are dropped.
    pub fn new(
        alloc: Global,
        short: Board<P>,
        long: Board<P>,
    ) -> Result<(Classes<P>, Pair<P>), Memory>
        requires root { long.root ≡ short.root }
        requires ring { long.ring ≡ short.ring }
        requires empty { (short.past ≡ []) × (long.past ≡ []) }
        ensures short { IfOk result (λ r.
            r.1.short ≡ first_seat r.0.short (record { root = short.root; ring = short.ring })) }
        ensures long { IfOk result (λ r.
            r.1.long ≡ first_seat r.0.long (record { root = short.root; ring = short.ring })) }
        ensures lawful { IsLawful P.asks short × IsLawful P.asks long }
    {
        let (short, first) = SharedBoard::new(alloc, short)?;
        let (long, other) = SharedBoard::new(alloc, long)?;
        Ok((
            Classes { short, long },
            Pair {
                short: first,
                long: other,
            },
        ))
    }

    /// Attaches a query to the board of its class, as the board does, and returns the class. `Again` means that this
    /// board had the number before: the other board may have it too. Waits for the lock. Allocates memory.
    pub fn attach<R: Wait>(
        &self,
        rt: &R,
        pair: Pair<P>,
        q: u32,
        chunks: ChunkSet,
        empty: P,
    ) -> (Class, Attach<P>, Pair<P>)
        requires short { pair.short.turn ≡ self.now.short }
        requires long { pair.long.turn ≡ self.now.long }
        requires from_1 { 1 ≤ q }
        requires to_255 { q ≤ QUERY_MOST }
        requires in_ring { All (λ c. c < (seat_at pair (class_of chunks)).root.ring) chunks }
        requires asked { All (P.asks (seat_at pair (class_of chunks)).root.root q) chunks }
        requires nothing { P.stands (seat_at pair (class_of chunks)).root.root q [] empty }
        ensures class { result.0 ≡ class_of chunks }
        ensures called { CalledAt P.asks result.0
            (λ before after. AnswersAttach (seat_at pair result.0).number before q chunks empty
            result.1 after)
            pair result.2 }
    {
        let Pair { short, long } = pair;
        match Class::of(&chunks) {
            Class::Short => {
                let (answer, short) = self.short.attach(rt, short, q, chunks, empty);
                (Class::Short, answer, Pair { short, long })
            }
            Class::Long => {
                let (answer, long) = self.long.attach(rt, long, q, chunks, empty);
                (Class::Long, answer, Pair { short, long })
            }
        }
    }

    /// Hands out the next chunk of the short board's lap, and only if it has none, that of the long board's lap. Waits
    /// for the locks. Does not allocate.
    pub fn take<R: Wait>(&self, rt: &R, pair: Pair<P>) -> (ClassTake, Pair<P>)
        requires short { pair.short.turn ≡ self.now.short }
        requires long { pair.long.turn ≡ self.now.long }
        ensures answer { AnswersClassTake P.asks pair result.0 result.1 }
        ensures holds { HasClassTask P.asks pair result.0 result.1 }
    {
        let Pair { short, long } = pair;
        let (first, short) = self.short.take(rt, short);
        match first {
            Take::Task(task) => (ClassTake::Short(task), Pair { short, long }),
            Take::Idle => {
                let (then, long) = self.long.take(rt, long);
                (ClassTake::after_idle(then), Pair { short, long })
            }
            Take::Ended => {
                let (then, long) = self.long.take(rt, long);
                (ClassTake::after_ended(then), Pair { short, long })
            }
        }
    }

    /// Absorbs the pieces of a task, at the board that it was taken from. Waits for the lock. Only absorbing allocates
    /// memory.
    pub fn deliver<R: Wait>(
        &self,
        rt: &R,
        pair: Pair<P>,
        class: Class,
        task: Task,
        pieces: Vec<Option<P>>,
    ) -> Pair<P>
        requires short { pair.short.turn ≡ self.now.short }
        requires long { pair.long.turn ≡ self.now.long }
        requires holds { HasTask (seat_at pair class) task }
        requires stand { PiecesFit (P.stands (seat_at pair class).root.root) task.chunk
            task.queries pieces.items }
        ensures called { CalledAt P.asks class
            (λ before after. DeliversTask P.refuses (seat_at pair class).number task pieces.items
            before after)
            pair result }
    {
        let Pair { short, long } = pair;
        match class {
            Class::Short => {
                let short = self.short.deliver(rt, short, task, pieces);
                Pair { short, long }
            }
            Class::Long => {
                let long = self.long.deliver(rt, long, task, pieces);
                Pair { short, long }
            }
        }
    }

    /// Cancels a running query at the board of this class. Returns true exactly if it ran there. Waits for the lock.
    /// Does not allocate.
    pub fn cancel<R: Wait>(&self, rt: &R, pair: Pair<P>, class: Class, q: u32) -> (bool, Pair<P>)
        requires short { pair.short.turn ≡ self.now.short }
        requires long { pair.long.turn ≡ self.now.long }
        ensures called { CalledAt P.asks class
            (λ before after. AnswersCancel (seat_at pair class).number before q result.0 after)
            pair result.1 }
    {
        let Pair { short, long } = pair;
        match class {
            Class::Short => {
                let (ran, short) = self.short.cancel(rt, short, q);
                (ran, Pair { short, long })
            }
            Class::Long => {
                let (ran, long) = self.long.cancel(rt, long, q);
                (ran, Pair { short, long })
            }
        }
    }

    /// Hands out the end of a query at the board of this class, once, as the board does. Waits for the lock. Does not
    /// allocate.
    pub fn collect<R: Wait>(
        &self,
        rt: &R,
        pair: Pair<P>,
        class: Class,
        q: u32,
    ) -> (Collect<P>, Pair<P>)
        requires short { pair.short.turn ≡ self.now.short }
        requires long { pair.long.turn ≡ self.now.long }
        ensures called { CalledAt P.asks class
            (λ before after. AnswersCollect P.stands (seat_at pair class).number before q result.0
            after)
            pair result.1 }
    {
        let Pair { short, long } = pair;
        match class {
            Class::Short => {
                let (end, short) = self.short.collect(rt, short, q);
                (end, Pair { short, long })
            }
            Class::Long => {
                let (end, long) = self.long.collect(rt, long, q);
                (end, Pair { short, long })
            }
        }
    }

    /// Closes the short board, then the long one: no query can be attached from then on. Waits for the locks. Does not
    /// allocate.
    pub fn close<R: Wait>(&self, rt: &R, pair: Pair<P>) -> Pair<P>
        requires short { pair.short.turn ≡ self.now.short }
        requires long { pair.long.turn ≡ self.now.long }
        ensures short { Called P.asks (AnswersClose pair.short.number) pair.short result.short }
        ensures long { Called P.asks (AnswersClose pair.long.number) pair.long result.long }
    {
        let Pair { short, long } = pair;
        let short = self.short.close(rt, short);
        let long = self.long.close(rt, long);
        Pair { short, long }
    }

    /// Makes one more pair, with the next number, out of the first one. Does not allocate.
    pub fn split(&self, pair: &mut Pair<P>) -> Pair<P>
        requires short { pair.old.short.turn ≡ self.now.short }
        requires long { pair.old.long.turn ≡ self.now.long }
        requires first { pair.old.short.number ≡ 0 }
        requires room { pair.old.short.made < 2 ^ 32 - 1 }
        ensures short { pair.new.short ≡ one_more_made pair.old.short }
        ensures long { pair.new.long ≡ one_more_made pair.old.long }
        ensures next_short { result.short ≡ next_seat pair.old.short }
        ensures next_long { result.long ≡ next_seat pair.old.long }
        ensures known { Knows seat_of pair.new.short × Knows seat_of pair.new.long }
        ensures next_known { Knows seat_of result.short × Knows seat_of result.long }
    {
        let short = self.short.split(&mut pair.short);
        let long = self.long.split(&mut pair.long);
        Pair { short, long }
    }

    /// Ends another pair in this one, which has then seen the longer journal of each board. Does not allocate.
    pub fn join(&self, pair: &mut Pair<P>, other: Pair<P>)
        requires short { pair.old.short.turn ≡ self.now.short }
        requires long { pair.old.long.turn ≡ self.now.long }
        requires other_short { other.short.turn ≡ self.now.short }
        requires other_long { other.long.turn ≡ self.now.long }
        requires not_first { other.short.number ≢ 0 }
        ensures short { pair.new.short ≡ joined_with pair.old.short other.short }
        ensures long { pair.new.long ≡ joined_with pair.old.long other.long }
        ensures seen_short { IsPrefix pair.old.short.seen pair.new.short.seen }
        ensures seen_long { IsPrefix pair.old.long.seen pair.new.long.seen }
        ensures other_seen_short { IsPrefix other.short.seen pair.new.short.seen }
        ensures other_seen_long { IsPrefix other.long.seen pair.new.long.seen }
        ensures known { Knows seat_of pair.new.short × Knows seat_of pair.new.long }
    {
        let Pair { short, long } = other;
        self.short.join(&mut pair.short, short);
        self.long.join(&mut pair.long, long);
    }
}
