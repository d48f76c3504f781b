//! The pieces of an open task, as the worker that has the task makes and fetches them.
//!
//! Nothing is known of an open task under its lock, but what its type says. So the worker that has the task
//! makes each piece that is missing in the end: one that could not be allocated, or that another worker could not make.
//! Then a piece is missing only if the engine refused it to this worker.
ghost use Rattle.std.specs.Prelude.{◌≡◌, ◌<◌, All, length};
ghost use Rattle.scan_rules.specs.Delivers.{entry_of};
ghost use Rattle.scan_core.specs.Changes.{Beside};
ghost use Rattle.scan_core.specs.Delivering.{PiecesFit};
ghost use Rattle.scan_worker.specs.Missing.{AllAnswered, Answered};
ghost use Rattle.scan_worker.specs.Opened.{AreMade, AreNone, Fetched};
ghost use Rattle.scan_worker.specs.Turns.{StepsOn};

use crate::desk::Desk;
use crate::engine::Engine;
use crate::open_task::{Made, Next, OpenTask, Promised};
use crate::team::Team;
use scan_board::{Task, Work};
use std::sync::{Mutex, Wait};
use std::thread;

impl<'e, P: Work, E: Engine<P>, W: Promised<P>> Team<'e, P, E, W> {
    /// Makes the pieces of a task that is open already.
    #[tactic(auto, using(crate::proofs::Making::made_none))]
    pub(crate) fn pieces_with<R: Wait>(
        &self,
        rt: &R,
        open: &Mutex<OpenTask<P, W>>,
        task: &Task,
        desk: &mut Desk<E::Scratch>,
        pieces: Vec<Option<P>>,
    ) -> Vec<Option<P>>
        requires asked { All (λ q. P.asks (E.root self.now) q task.now.chunk) task.now.queries }
        requires none { AreNone (length task.now.queries) pieces.items }
        ensures fit { PiecesFit (P.stands (E.root self.now)) task.now.chunk
            task.now.queries result.items }
        ensures answered { AllAnswered (E.refused self.now) task.now result.items }
    {
        let mut pieces = pieces;
        self.make_all(rt, open, task, &mut desk.scratch, pieces.as_mut_slice());
        self.make_missing(task, &mut desk.scratch, pieces.as_mut_slice());
        pieces
    }

    /// Makes the pieces of an open task, together with any worker that helps.
    fn make_all<R: Wait>(
        &self,
        rt: &R,
        open: &Mutex<OpenTask<P, W>>,
        task: &Task,
        scratch: &mut E::Scratch,
        pieces: &mut [Option<P>],
    )
        requires asked { All (λ q. P.asks (E.root self.now) q task.now.chunk) task.now.queries }
        requires made { AreMade (P.stands (E.root self.now))
            task.now.chunk task.now.queries pieces.old }
        ensures made { AreMade (P.stands (E.root self.now))
            task.now.chunk task.now.queries pieces.new }
    {
        for _ in rt.forever() {
            let next = open.lock(rt).next();
            if !self.go_on(task, next, scratch, pieces) {
                return;
            }
        }
    }

    /// Carries out the next step. Returns true while there is more to do.
    fn go_on(
        &self,
        task: &Task,
        next: Next<Made<P, W>>,
        scratch: &mut E::Scratch,
        pieces: &mut [Option<P>],
    ) -> bool
        requires asked { All (λ q. P.asks (E.root self.now) q task.now.chunk) task.now.queries }
        requires made { AreMade (P.stands (E.root self.now))
            task.now.chunk task.now.queries pieces.old }
        ensures made { AreMade (P.stands (E.root self.now))
            task.now.chunk task.now.queries pieces.new }
        ensures step { StepsOn (E.refused self.now) task.now next pieces.old pieces.new result }
    {
        match next {
            Next::Begin(turn) => self.make(task, turn, scratch, pieces),
            Next::Fetch(made) => self.fetch(task, made, pieces),
            Next::Wait => thread::yield_now(),
            Next::Over => return false,
        }
        true
    }

    /// Makes each piece that is missing.
    fn make_missing(&self, task: &Task, scratch: &mut E::Scratch, pieces: &mut [Option<P>])
        requires asked { All (λ q. P.asks (E.root self.now) q task.now.chunk) task.now.queries }
        requires made { AreMade (P.stands (E.root self.now))
            task.now.chunk task.now.queries pieces.old }
        ensures made { AreMade (P.stands (E.root self.now))
            task.now.chunk task.now.queries pieces.new }
        ensures answered { AllAnswered (E.refused self.now) task.now pieces.new }
    {
        for turn in 0..pieces.len() {
            self.make(task, turn, scratch, pieces);
        }
    }

    /// Makes the piece of the query at a position, if it is missing.
    #[tactic(auto, using(crate::proofs::Making::made_put))]
    fn make(&self, task: &Task, turn: usize, scratch: &mut E::Scratch, pieces: &mut [Option<P>])
        requires asked { All (λ q. P.asks (E.root self.now) q task.now.chunk) task.now.queries }
        requires made { AreMade (P.stands (E.root self.now))
            task.now.chunk task.now.queries pieces.old }
        ensures made { AreMade (P.stands (E.root self.now))
            task.now.chunk task.now.queries pieces.new }
        ensures answered { Answered (E.refused self.now) task.now turn pieces.old pieces.new }
    {
        let queries = task.queries();
        if turn < queries.len() && pieces[turn].is_none() {
            let piece = self.engine.piece(queries[turn], task.chunk(), scratch);
            put(pieces, turn, piece.ok());
        }
    }

    /// Stores a piece that another worker made at its position.
    #[tactic(auto, using(crate::proofs::Making::made_put))]
    fn fetch(&self, task: &Task, made: Made<P, W>, pieces: &mut [Option<P>])
        requires made { AreMade (P.stands (E.root self.now))
            task.now.chunk task.now.queries pieces.old }
        ensures made { AreMade (P.stands (E.root self.now))
            task.now.chunk task.now.queries pieces.new }
        ensures fetched { Fetched task.now made pieces.old pieces.new }
    {
        // reading this field gives the prover the team's invariant
        let _ = &self.engine;
        let Made {
            turn,
            q,
            chunk,
            piece,
            of: _,
        } = made;
        let queries = task.queries();
        if turn < queries.len() && queries[turn] == q && task.chunk() == chunk {
            put(pieces, turn, Some(piece));
        }
    }
}

/// Stores an entry at a position.
fn put<P: Work>(pieces: &mut [Option<P>], turn: usize, entry: Option<P>)
    requires { turn < length pieces.old }
    ensures beside { Beside pieces.old pieces.new turn }
    ensures here { entry_of pieces.new turn ≡ entry }
{
    pieces[turn] = entry;
}
