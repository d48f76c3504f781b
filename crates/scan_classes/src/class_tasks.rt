//! The boards of two classes, as workers use them: each place is a class.
ghost use Rattle.std.specs.Prelude.{◌≡◌, ◌⊎◌};
ghost use Rattle.scan_core.specs.Delivering.{DeliversTask, PiecesFit};
ghost use Rattle.scan_board.specs.Calls.{Called, HasTask};
ghost use Rattle.scan_classes.specs.Pairs.{seat_at, turn_at};
ghost use Rattle.scan_classes.specs.declared.class.Class.{Class};

use crate::class::{Class, ClassTake};
use crate::classes::Classes;
use crate::pair::Pair;
use scan_board::{Task, Work};
use scan_boards::{Taken, Tasks};
use std::sync::Wait;

impl<P: Work> Tasks<P> for Classes<P> {
    type Place = Class;

    type Seat = Pair<P>;

    ghost turn = { turn_at };

    ghost at = { seat_at };

    fn number(&self, pair: &Pair<P>) -> u32 {
        pair.number()
    }

    fn take<R: Wait>(&self, rt: &R, pair: Pair<P>) -> (Taken<Class>, Pair<P>) {
        let (taken, pair) = self.take(rt, pair);
        match taken {
            ClassTake::Short(task) => (
                Taken::Task {
                    place: Class::Short,
                    task,
                },
                pair,
            ),
            ClassTake::Long(task) => (
                Taken::Task {
                    place: Class::Long,
                    task,
                },
                pair,
            ),
            ClassTake::Idle => (Taken::Idle, pair),
            ClassTake::Ended => (Taken::Ended, pair),
        }
    }

    fn deliver<R: Wait>(
        &self,
        rt: &R,
        pair: Pair<P>,
        place: Class,
        task: Task,
        pieces: Vec<Option<P>>,
    ) -> Pair<P>
        requires own { (p : Class) → (seat_at pair p).turn ≡ turn_at self.now p }
        requires holds { HasTask (seat_at pair place) task }
        requires stand { PiecesFit (P.stands (seat_at pair place).root.root) task.chunk task.queries
            pieces.items }
        ensures called { Called P.asks
            (λ before after. DeliversTask P.refuses (seat_at pair place).number task pieces.items
            before after)
            (seat_at pair place) (seat_at result place) }
        ensures others { (p : Class) → (p ≡ place) ⊎ (seat_at result p ≡ seat_at pair p) }
    {
        self.deliver(rt, pair, place, task, pieces)
    }
}
