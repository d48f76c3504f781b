//! Where a worker takes tasks: one board, or several.
//!
//! Each board has a place. A worker is a participant of each board, with one number at all of them. Contracts see the
//! participant at a place, and the identity of the lock of the board there.
ghost use Rattle.std.specs.Prelude.{◌≡◌, ◌⊎◌};
ghost use Rattle.atomic_table.specs.Seated.{TableId};
ghost use Rattle.scan_core.specs.Delivering.{DeliversTask, PiecesFit};
ghost use Rattle.scan_board.specs.Calls.{BoardSeat, Called, HasTask};
ghost use Rattle.scan_boards.specs.Tasks.{AnswersTaken};

use scan_board::{Board, Seat, SharedBoard, Take, Task, Work};
use std::sync::Wait;

/// The result of a take from some boards.
#[derive(Drop)]
pub enum Taken<L> {
    /// The next chunk of the board at this place, with the queries that need it.
    Task { place: L, task: Task },
    /// No query needed a chunk, and more may be attached to one of the boards.
    Idle,
    /// No query needed a chunk, and all boards were closed.
    Ended,
}

/// Boards that tasks are taken from.
pub trait Tasks<P: Work> {
    /// The place of a board.
    type Place: Copy + Drop;

    /// A participant of each board, with the same number at all of them.
    type Seat: Drop;

    /// The identity of the lock of the board at a place.
    ghost turn: { Self → Self.Place → TableId };

    /// The participant at a place.
    ghost at: { Self.Seat → Self.Place → BoardSeat P.Root };

    /// Returns the participant's number. Does not allocate.
    fn number(&self, seat: &Self::Seat) -> u32
        ensures { (p : Self.Place) → result ≡ (at seat.now p).number };

    /// Hands out the next chunk of the lap of one of the boards. Waits for the locks. Does not allocate.
    fn take<R: Wait>(&self, rt: &R, seat: Self::Seat) -> (Taken<Self::Place>, Self::Seat)
        requires own { (p : Self.Place) → (at seat p).turn ≡ turn self.now p }
        ensures answer { AnswersTaken P.asks (at seat) result.0 (at result.1) };

    /// Absorbs the pieces of a task, at the board that it was taken from. Waits for the lock. Only absorbing allocates
    /// memory.
    fn deliver<R: Wait>(
        &self,
        rt: &R,
        seat: Self::Seat,
        place: Self::Place,
        task: Task,
        pieces: Vec<Option<P>>,
    ) -> Self::Seat
        requires own { (p : Self.Place) → (at seat p).turn ≡ turn self.now p }
        requires holds { HasTask (at seat place) task }
        requires stand { PiecesFit (P.stands (at seat place).root.root) task.chunk task.queries
            pieces.items }
        ensures called { Called P.asks
            (λ before after. DeliversTask P.refuses (at seat place).number task pieces.items before after)
            (at seat place) (at result place) }
        ensures others { (p : Self.Place) → (p ≡ place) ⊎ (at result p ≡ at seat p) };
}

impl<P: Work> Tasks<P> for SharedBoard<P> {
    type Place = ();

    type Seat = Seat<Board<P>>;

    ghost turn = { λ board place. board };

    ghost at = { λ seat place. seat };

    fn number(&self, seat: &Seat<Board<P>>) -> u32 {
        seat.number()
    }

    fn take<R: Wait>(&self, rt: &R, seat: Seat<Board<P>>) -> (Taken<()>, Seat<Board<P>>) {
        let (taken, seat) = self.take(rt, seat);
        match taken {
            Take::Task(task) => (Taken::Task { place: (), task }, seat),
            Take::Idle => (Taken::Idle, seat),
            Take::Ended => (Taken::Ended, seat),
        }
    }

    fn deliver<R: Wait>(
        &self,
        rt: &R,
        seat: Seat<Board<P>>,
        place: (),
        task: Task,
        pieces: Vec<Option<P>>,
    ) -> Seat<Board<P>>
        requires own { (p : Unit {0}) → seat.turn ≡ self.now }
        requires holds { HasTask seat task }
        requires stand { PiecesFit (P.stands seat.root.root) task.chunk task.queries pieces.items }
        ensures called { Called P.asks
            (λ before after. DeliversTask P.refuses seat.number task pieces.items before after)
            seat result }
        ensures others { (p : Unit {0}) → (p ≡ place) ⊎ (result ≡ seat) }
    {
        let () = place;
        self.deliver(rt, seat, task, pieces)
    }
}
