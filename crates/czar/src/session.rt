//! The session of a script: its queries are planned and driven over a shared board with workers beside the czar, and
//! their ends are returned.

ghost use Rattle.std.specs.Prelude.{◌≡◌, ◌≤◌, IfOk, map};
ghost use Rattle.table_rules.specs.Objects.{IsCatalogue};
ghost use Rattle.sky_rules.specs.Limits.{IsSky};
ghost use Rattle.sky_rules.specs.Partition.{chunk_count};
ghost use Rattle.turn_lock.specs.Seats.{first_seat};
ghost use Rattle.session_rules.specs.Numbers.{numbered_from};
ghost use Rattle.session_rules.specs.declared.limits.TheConstants.{WORKERS_MOST};
ghost use Rattle.session_script.specs.Views.{query_lines};
ghost use Rattle.transcript_rules.specs.Transcripts.{FitEnds};
ghost use Rattle.czar.specs.Attached.{attached, base_over, chunk_query, numbered};
ghost use Rattle.czar.specs.Driven.{IsDriven, IsJoined, IsOver};
ghost use Rattle.czar.specs.Ended.{AreEnded};
ghost use Rattle.query_ends.specs.Ends.{kind_of};
ghost use Rattle.czar.specs.Ends.{EndsShow};
ghost use Rattle.czar.specs.Plans.{ArePlans};
ghost use Rattle.czar.specs.Traces.{IsTraceOf};

use crate::attach::{all_attached, chunk_queries, seated};
use crate::chunk_engine::ChunkEngine;
use crate::form::ObjectForm;
use crate::plan::{Plan, explain};
use crate::world::World;
use answer_rules::ChunkQuery;
use partial_merge::Piece;
use query_ends::{End, all_query_ends};
use scan_board::{Board, Seat, SharedBoard};
use scan_rules::Journal;
use scan_session::{End as BoardEnd, Planned, Scan, drive};
use session_script::Script;
use sky_io::{Gate, Memory};
use std::alloc::Global;
use std::sync::Wait;
use std::thread::Threads;

/// Runs the queries of a script over a shared board, with the given number of workers on threads beside the caller,
/// which works too while it waits. A worker that takes a chunk passes the gate before the work on it. Allocates memory,
/// and waits; each answer is computed before any of it is written. Wait lines and cancel lines are obeyed in the order
/// of the script. If an allocation fails in a query's own work, the query ends as `Spent`, and the others go on.
pub fn run_session<R: Threads + Wait + Sync, G: Gate + Sync>(
    alloc: Global,
    rt: &R,
    world: &World<'_>,
    script: &Script<'_>,
    workers: u32,
    gate: &G,
) -> Result<Vec<End>, Memory>
    requires few { workers ≤ WORKERS_MOST }
    ensures fit { IfOk result (λ ends.
        FitEnds workers world.now.plan world.now.rows script.now (map kind_of ends.items)) }
    ensures shown { IfOk result (λ ends.
        EndsShow world.now.plan world.now.rows (query_lines script.now) ends.items) }
{
    let session = SessionContext {
        alloc,
        rt,
        world,
        script,
        workers,
        gate,
    };
    match session.plan_and_drive() {
        Ok((plans, Driven { board, seat, ends })) => {
            drop((board, seat));
            session.query_ends(plans, ends)
        }
        Err(Memory) => Err(Memory),
    }
}

/// Runs the queries of a script as `run_session` does, and returns the journal of the board beside their ends. The
/// journal is read once the workers have ended, when no line is added any more. Allocates memory for it too: if that
/// fails, the call returns Memory.
pub fn run_traced<R: Threads + Wait + Sync, G: Gate + Sync>(
    alloc: Global,
    rt: &R,
    world: &World<'_>,
    script: &Script<'_>,
    workers: u32,
    gate: &G,
) -> Result<(Vec<End>, Journal), Memory>
    requires few { workers ≤ WORKERS_MOST }
    ensures fit { IfOk result (λ r.
        FitEnds workers world.now.plan world.now.rows script.now (map kind_of r.0.items)) }
    ensures shown { IfOk result (λ r.
        EndsShow world.now.plan world.now.rows (query_lines script.now) r.0.items) }
    ensures trace { IfOk result (λ r. IsTraceOf workers
        world.now.plan world.now.rows script.now (map kind_of r.0.items) r.1) }
{
    let session = SessionContext {
        alloc,
        rt,
        world,
        script,
        workers,
        gate,
    };
    match session.plan_and_drive() {
        Ok((plans, Driven { board, seat, ends })) => {
            let journal = session.journal(&board, seat);
            drop(board);
            let ends = session.query_ends(plans, ends)?;
            Ok((ends, journal?))
        }
        Err(Memory) => Err(Memory),
    }
}

/// What a session is run over, and the means to run it: it stays the same during the session. A session may be over one
/// board, or over several (`class_session`).
#[derive(Drop)]
pub struct SessionContext<'s, 't, R, G> {
    pub alloc: Global,
    pub rt: &'s R,
    pub world: &'s World<'s>,
    pub script: &'s Script<'t>,
    /// Beside the czar.
    pub workers: u32,
    pub gate: &'s G,
}

/// A session whose workers were joined: its board, the czar's participant, and the end of each query at the board.
#[derive(Drop)]
struct Driven<'s> {
    board: SharedBoard<Piece<'s>>,
    seat: Seat<Board<Piece<'s>>>,
    ends: Vec<BoardEnd<Piece<'s>>>,
}

impl<'s, 't, R: Threads + Wait + Sync, G: Gate + Sync> SessionContext<'s, 't, R, G> {
    /// Plans the queries of the script, and drives them.
    fn plan_and_drive(&self) -> Result<(Vec<Plan>, Driven<'s>), Memory>
        requires few { self.now.workers ≤ WORKERS_MOST }
        ensures plans { IfOk result (λ r. ArePlans
            self.now.world.now.plan self.now.world.now.rows (query_lines self.now.script.now)
            r.0.items) }
        ensures own { IfOk result (λ r. r.1.seat.turn ≡ r.1.board) }
        ensures over { IfOk result (λ r. IsOver self.now.workers
            self.now.world.now.plan self.now.world.now.rows self.now.script.now.steps
            r.0.items r.1.seat r.1.ends.items) }
    {
        let plans = explain(self.alloc, self.world, self.script)?;
        match self.driven(plans.as_slice()) {
            Ok(driven) => Ok((plans, driven)),
            Err(Memory) => Err(Memory),
        }
    }

    /// Reads the journal of the board, once its workers were joined. Allocates memory, and waits for the lock.
    fn journal(
        &self,
        board: &SharedBoard<Piece<'s>>,
        seat: Seat<Board<Piece<'s>>>,
    ) -> Result<Journal, Memory>
        requires own { seat.turn ≡ board.now }
        requires joined { IsJoined self.now.world.now.plan seat }
        ensures { IfOk result (λ journal. journal ≡ record {
          ring = chunk_count self.now.world.now.plan;
          lines = seat.entry.seen;
        }) }
    {
        let (journal, seat) = board.journal(self.rt, seat);
        drop(seat);
        journal
    }

    /// Returns the end of each query, by its plan and by how it ended at its board. Allocates memory.
    pub fn query_ends(
        &self,
        plans: Vec<Plan>,
        ends: Vec<BoardEnd<Piece<'_>>>,
    ) -> Result<Vec<End>, Memory>
        requires plans { ArePlans self.now.world.now.plan self.now.world.now.rows
            (query_lines self.now.script.now) plans.items }
        requires driven { IsDriven self.now.workers self.now.world.now.plan
            self.now.world.now.rows self.now.script.now.steps plans.items ends.items }
        ensures fit { IfOk result (λ ends. FitEnds self.now.workers
            self.now.world.now.plan self.now.world.now.rows self.now.script.now
            (map kind_of ends.items)) }
        ensures shown { IfOk result (λ ends. EndsShow
            self.now.world.now.plan self.now.world.now.rows (query_lines self.now.script.now)
            ends.items) }
        ensures ended { IfOk result (λ query_ends.
            AreEnded plans.items ends.entry.items query_ends.items) }
    {
        within_limits(self.world);
        let _ = self.script.steps();
        let form = ObjectForm { alloc: self.alloc };
        all_query_ends(self.alloc, &form, plans, ends)
    }

    /// Drives the queries with these plans over a board of their own.
    fn driven(&self, plans: &[Plan]) -> Result<Driven<'s>, Memory>
        requires few { self.now.workers ≤ WORKERS_MOST }
        requires plans { ArePlans self.now.world.now.plan self.now.world.now.rows
            (query_lines self.now.script.now) plans.now }
        ensures own { IfOk result (λ r. r.seat.turn ≡ r.board) }
        ensures over { IfOk result (λ r. IsOver self.now.workers self.now.world.now.plan
            self.now.world.now.rows self.now.script.now.steps plans.now r.seat r.ends.items) }
    {
        let _ = self.script.queries();
        within_limits(self.world);
        let asked = chunk_queries(self.alloc, plans)?;
        let planned = all_attached(self.alloc, plans)?;
        match seated(self.alloc, self.world, asked.as_slice()) {
            Ok((board, seat)) => self.driven_at(plans, asked.as_slice(), planned, board, seat),
            Err(Memory) => {
                drop(planned);
                Err(Memory)
            }
        }
    }

    /// Drives what is attached for the queries with these plans over this board, from the czar's first participant.
    /// The plans are read by contracts alone.
    fn driven_at(
        &self,
        plans: &[Plan],
        queries: &[(u32, &ChunkQuery)],
        planned: Vec<Option<Planned<Piece<'s>>>>,
        board: SharedBoard<Piece<'s>>,
        seat: Seat<Board<Piece<'s>>>,
    ) -> Result<Driven<'s>, Memory>
        requires few { self.now.workers ≤ WORKERS_MOST }
        requires plans { ArePlans self.now.world.now.plan self.now.world.now.rows
            (query_lines self.now.script.now) plans.now }
        requires planned { planned.items ≡ map attached plans.now }
        requires queries { numbered queries.now ≡ numbered_from 1 (map chunk_query plans.now) }
        requires seat { seat ≡ first_seat board (record {
          root = base_over self.now.world.now.plan self.now.world.now.rows queries.now;
          ring = chunk_count self.now.world.now.plan;
        }) }
        ensures own { IfOk result (λ r. r.seat.turn ≡ r.board) }
        ensures over { IfOk result (λ r. IsOver self.now.workers self.now.world.now.plan
            self.now.world.now.rows self.now.script.now.steps plans.now r.seat r.ends.items) }
    {
        within_limits(self.world);
        let _ = self.script.queries();
        let engine = ChunkEngine {
            alloc: self.alloc,
            world: self.world.store(),
            queries,
        };
        let scan = Scan {
            alloc: self.alloc,
            rt: self.rt,
            boards: &board,
            engine: &engine,
            gate: self.gate,
        };
        let (ends, seat) = drive(&scan, seat, planned, self.script.steps(), self.workers);
        match ends {
            Ok(ends) => Ok(Driven { board, seat, ends }),
            Err(Memory) => {
                drop((board, seat));
                Err(Memory)
            }
        }
    }
}

/// States of a world that its plan and its rows are within the limits. Does not allocate.
pub fn within_limits(world: &World<'_>)
    ensures sky { IsSky world.now.plan }
    ensures rows { IsCatalogue world.now.rows }
{
    let _ = world.plan().chunks();
    let _ = world.rows().len();
}
