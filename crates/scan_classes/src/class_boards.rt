//! The boards of two classes with the class of each query, as a czar uses them: each query is at the board of its class.
ghost use Rattle.std.specs.Prelude.{◌≡◌, ◌⊎◌};
ghost use Rattle.scan_core.specs.Delivering.{DeliversTask, PiecesFit};
ghost use Rattle.scan_board.specs.Calls.{Called, HasTask};
ghost use Rattle.scan_classes.specs.QueryClasses.{class_in, same_class};
ghost use Rattle.scan_classes.specs.Pairs.{class_of, seat_at, turn_at};
ghost use Rattle.scan_classes.specs.declared.class.Class.{Class};

use crate::class::Class;
use crate::classes::Classes;
use crate::pair::Pair;
use scan_board::{Attach, ChunkSet, Collect, Task, Work};
use scan_boards::{Boards, Taken, Tasks};
use std::marker::Model;
use std::sync::Wait;

/// The boards of two classes, and the class of each query by its number, from 0, which no query has. A query whose
/// number is not in the list is short.
#[derive(Drop)]
pub struct ClassBoards<'c, P: Work> {
    pub(crate) classes: &'c Classes<P>,
    pub(crate) of: Vec<Class>,
}

impl<'c, P: Work> Model for ClassBoards<'c, P> {
    ghost use Rattle.scan_classes.specs.QueryClasses.{QueryClasses};

    ghost Value = { QueryClasses };

    ghost view = { λ c. record { turns = c.classes.now; classes = c.of.items } };
}

impl<'c, P: Work> ClassBoards<'c, P> {
    /// The boards of two classes, with these classes of the queries. Does not allocate.
    pub fn new(classes: &'c Classes<P>, of: Vec<Class>) -> ClassBoards<'c, P>
        ensures turns { result.turns ≡ classes.now }
        ensures classes { result.classes ≡ of.items }
    {
        ClassBoards { classes, of }
    }

    /// The class of a query. Does not allocate.
    pub fn class(&self, q: u32) -> Class
        ensures { result ≡ class_in self.now q }
    {
        match self.of.get(q as usize) {
            Some(class) => *class,
            None => Class::Short,
        }
    }
}

impl<'c, P: Work> Tasks<P> for ClassBoards<'c, P> {
    type Place = Class;

    type Seat = Pair<P>;

    ghost turn = { λ boards class. turn_at boards.turns class };

    ghost at = { seat_at };

    fn number(&self, pair: &Pair<P>) -> u32 {
        pair.number()
    }

    fn take<R: Wait>(&self, rt: &R, pair: Pair<P>) -> (Taken<Class>, Pair<P>) {
        Tasks::take(self.classes, rt, pair)
    }

    fn deliver<R: Wait>(
        &self,
        rt: &R,
        pair: Pair<P>,
        place: Class,
        task: Task,
        pieces: Vec<Option<P>>,
    ) -> Pair<P>
        requires own { (p : Class) → (seat_at pair p).turn ≡ turn_at self.now.turns p }
        requires holds { HasTask (seat_at pair place) task }
        requires stand { PiecesFit (P.stands (seat_at pair place).root.root) task.chunk task.queries
            pieces.items }
        ensures called { Called P.asks
            (λ before after. DeliversTask P.refuses (seat_at pair place).number task pieces.items
            before after)
            (seat_at pair place) (seat_at result place) }
        ensures others { (p : Class) → (p ≡ place) ⊎ (seat_at result p ≡ seat_at pair p) }
    {
        Tasks::deliver(self.classes, rt, pair, place, task, pieces)
    }
}

impl<'c, P: Work> Boards<P> for ClassBoards<'c, P> {
    ghost use Rattle.scan_classes.specs.Homes.{housed};

    // the place of a query's board is the class of the query in the list
    ghost home = { class_in };

    // the board of a query is at this place alone
    ghost has = { λ boards class q. same_class class (class_in boards q) };

    // a query may be attached with chunks of which there are as many as its class in the list allows
    ghost suits = { λ boards q chunks. class_of chunks ≡ class_in boards q };

    ghost housed = { housed };

    fn attach<R: Wait>(
        &self,
        rt: &R,
        pair: Pair<P>,
        q: u32,
        chunks: ChunkSet,
        empty: P,
    ) -> (Attach<P>, Pair<P>) {
        let (_class, answer, pair) = self.classes.attach(rt, pair, q, chunks, empty);
        (answer, pair)
    }

    fn cancel<R: Wait>(&self, rt: &R, pair: Pair<P>, q: u32) -> (bool, Pair<P>) {
        let class = self.class(q);
        self.classes.cancel(rt, pair, class, q)
    }

    fn collect<R: Wait>(&self, rt: &R, pair: Pair<P>, q: u32) -> (Collect<P>, Pair<P>) {
        let class = self.class(q);
        self.classes.collect(rt, pair, class, q)
    }

    fn close<R: Wait>(&self, rt: &R, pair: Pair<P>) -> Pair<P> {
        self.classes.close(rt, pair)
    }

    fn split(&self, pair: &mut Pair<P>) -> Pair<P> {
        self.classes.split(pair)
    }

    fn join(&self, pair: &mut Pair<P>, other: Pair<P>) {
        self.classes.join(pair, other)
    }
}
