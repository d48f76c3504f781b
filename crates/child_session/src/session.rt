//! The session of a script over a child table: its queries are planned and driven over a shared board with workers
//! beside the czar, and their ends are returned.

ghost use Rattle.std.specs.Prelude.{◌≡◌, ◌+◌, ◌≤◌, IfOk, map};
ghost use Rattle.turn_lock.specs.Seats.{first_seat};
ghost use Rattle.session_rules.specs.declared.limits.TheConstants.{WORKERS_MOST};
ghost use Rattle.session_script.specs.Views.{query_lines};
ghost use Rattle.scan_session.specs.Crews.{Manned};
ghost use Rattle.scan_session.specs.Drove.{Drove};
ghost use Rattle.query_ends.specs.Ends.{kind_of};
ghost use Rattle.query_ends.specs.States.{AreEndsIn};
ghost use Rattle.child_rules.specs.ChildBases.{ChildAsks};
ghost use Rattle.child_transcripts.specs.ChildTranscripts.{ChildFitEnds};
ghost use Rattle.child_session.specs.ChildAttached.{child_attached, child_board_of, child_chunks_planned};
ghost use Rattle.child_session.specs.ChildAttached.{query_in_plan, query_values};
ghost use Rattle.child_session.specs.ChildDriven.{AnsweredAreDone, IsChildDriven};
ghost use Rattle.child_session.specs.ChildEnds.{ChildEndsShow};
ghost use Rattle.child_session.specs.ChildPlans.{AreChildPlans};
ghost use Rattle.child_session.specs.ChildQueryPlans.{child_plans_of};

use crate::attach::{board_for, child_queries};
use crate::engine::ChildEngine;
use crate::form::{ChildForm, query_plans};
use crate::plan::{ChildPlan, child_plans};
use crate::world::ChildWorld;
use child_piece::ChildPiece;
use child_rules::ChildBound;
use child_transcripts::laws::bound_can_be_run;
use query_ends::{End, QueryPlan, all_attached, all_query_ends};
use scan_board::{Board, Seat, SharedBoard};
use scan_session::{End as BoardEnd, Planned, Scan, drive};
use session_script::Script;
use sky_io::{Gate, Memory};
use std::alloc::Global;
use std::sync::Wait;
use std::thread::Threads;

/// Runs the queries of a script over both tables and a shared board, with the given number of workers on threads beside
/// the caller, which works too while it waits. A worker that takes a chunk passes the gate before the work on it.
/// Allocates memory, and waits; each answer is computed before any of it is written. Wait lines and cancel lines are
/// obeyed in the order of the script. If an allocation fails in a query's own work, the query ends as `Spent`, and the
/// others go on. That there is a board is visible in the contract of `drive_children`, and not in this one.
pub fn run_children<R: Threads + Wait + Sync, G: Gate + Sync>(
    alloc: Global,
    rt: &R,
    world: &ChildWorld<'_>,
    script: &Script<'_>,
    workers: u32,
    gate: &G,
) -> Result<Vec<End>, Memory>
    requires few { workers ≤ WORKERS_MOST }
    ensures fit { IfOk result (λ ends. ChildFitEnds workers world.now.plan world.now.rows
        world.now.table script.now (map kind_of ends.items)) }
    ensures shown { IfOk result (λ ends.
        ChildEndsShow world.now (query_lines script.now) ends.items) }
{
    let session = ChildContext {
        alloc,
        rt,
        world,
        script,
        workers,
        gate,
    };
    let plans = child_plans(alloc, world, script)?;
    let (board, seat) = board_for(&session, plans.as_slice())?;
    let (ends, seat) = drive_children(&session, plans, &board, seat);
    drop((board, seat));
    ends
}

/// What a session over a child table is run over, and the means to run it: it stays the same during the session.
#[derive(Drop)]
pub struct ChildContext<'s, 't, R, G> {
    pub alloc: Global,
    pub rt: &'s R,
    pub world: &'s ChildWorld<'s>,
    pub script: &'s Script<'t>,
    /// Beside the czar.
    pub workers: u32,
    pub gate: &'s G,
}

/// Drives the queries with these plans over this board, from the czar's first participant, and returns the end of each
/// query, in their order. Allocates memory, and waits. On Memory, too, the board is closed and the workers are joined.
pub fn drive_children<'s, R: Threads + Wait + Sync, G: Gate + Sync>(
    session: &ChildContext<'s, '_, R, G>,
    plans: Vec<ChildPlan>,
    board: &SharedBoard<ChildPiece<'s>>,
    seat: Seat<Board<ChildPiece<'s>>>,
) -> (Result<Vec<End>, Memory>, Seat<Board<ChildPiece<'s>>>)
    requires few { session.now.workers ≤ WORKERS_MOST }
    requires plans { AreChildPlans session.now.world.now (query_lines session.now.script.now)
        plans.items }
    requires seat { seat ≡ first_seat board.now
        (child_board_of session.now.world.now plans.items) }
    ensures drove { IfOk result.0 (λ ends. Drove session.now.workers
        (child_chunks_planned plans.items) session.now.script.now.steps result.1.seen) }
    ensures made { IfOk result.0 (λ ends. result.1.made ≡ 1 + session.now.workers) }
    ensures manned { Manned ChildAsks seat.entry result.1 }
    ensures states { IfOk result.0 (λ ends.
        AreEndsIn (λ q. result.1.seen) (map kind_of ends.items)) }
    ensures done { IfOk result.0 (λ ends.
        AnsweredAreDone result.1.seen (map kind_of ends.items)) }
    ensures fit { IfOk result.0 (λ ends. ChildFitEnds session.now.workers
        session.now.world.now.plan session.now.world.now.rows session.now.world.now.table
        session.now.script.now (map kind_of ends.items)) }
    ensures shown { IfOk result.0 (λ ends.
        ChildEndsShow session.now.world.now (query_lines session.now.script.now) ends.items) }
{
    bound_can_be_run();
    session.world.within_limits();
    let _ = session.script.steps();
    let form = ChildForm {
        alloc: session.alloc,
    };
    match query_plans(session.alloc, plans) {
        Ok(plans) => {
            let (ends, seat) = driven(session, plans.as_slice(), board, seat);
            match ends {
                Ok(ends) => (all_query_ends(session.alloc, &form, plans, ends), seat),
                Err(Memory) => {
                    drop(plans);
                    (Err(Memory), seat)
                }
            }
        }
        Err(Memory) => (Err(Memory), close_unused(session.rt, board, seat)),
    }
}

/// Closes a board on which no session begins, from the czar's first participant.
fn close_unused<'s, R: Wait>(
    rt: &R,
    board: &SharedBoard<ChildPiece<'s>>,
    seat: Seat<Board<ChildPiece<'s>>>,
) -> Seat<Board<ChildPiece<'s>>>
    requires first { seat ≡ first_seat board.now seat.root }
    ensures manned { Manned ChildAsks seat.entry result }
{
    board.close(rt, seat)
}

/// Drives the queries with these plans, and returns the end of each at the board.
fn driven<'s, R: Threads + Wait + Sync, G: Gate + Sync>(
    session: &ChildContext<'s, '_, R, G>,
    plans: &[QueryPlan<ChildBound>],
    board: &SharedBoard<ChildPiece<'s>>,
    seat: Seat<Board<ChildPiece<'s>>>,
) -> (
    Result<Vec<BoardEnd<ChildPiece<'s>>>, Memory>,
    Seat<Board<ChildPiece<'s>>>,
)
    requires few { session.now.workers ≤ WORKERS_MOST }
    requires plans { AreChildPlans session.now.world.now (query_lines session.now.script.now)
        (child_plans_of plans.now) }
    requires seat { seat ≡ first_seat board.now
        (child_board_of session.now.world.now (child_plans_of plans.now)) }
    ensures driven { IfOk result.0 (λ ends. IsChildDriven session.now.workers
        session.now.world.now session.now.script.now.steps (child_plans_of plans.now)
        result.1.seen ends.items) }
    ensures made { IfOk result.0 (λ ends. result.1.made ≡ 1 + session.now.workers) }
    ensures manned { Manned ChildAsks seat.entry result.1 }
{
    match parts(session.alloc, plans) {
        Ok((queries, planned)) => {
            driven_at(session, plans, queries.as_slice(), planned, board, seat)
        }
        Err(Memory) => (Err(Memory), close_unused(session.rt, board, seat)),
    }
}

/// What is needed to drive queries: their child queries, and what is attached for each.
type Parts<'p, 's> = (
    Vec<Option<&'p ChildBound>>,
    Vec<Option<Planned<ChildPiece<'s>>>>,
);

/// Returns what is needed to drive the queries with these plans. Allocates memory.
fn parts<'p, 's>(alloc: Global, plans: &'p [QueryPlan<ChildBound>]) -> Result<Parts<'p, 's>, Memory>
    ensures queries { IfOk result (λ r. query_values r.0.items
        ≡ map query_in_plan (child_plans_of plans.now)) }
    ensures planned { IfOk result (λ r. r.1.items
        ≡ map child_attached (child_plans_of plans.now)) }
{
    let queries = child_queries(alloc, plans)?;
    let planned = all_attached(alloc, &ChildForm { alloc }, plans)?;
    Ok((queries, planned))
}

/// Drives what is attached for the queries with these plans over this board, from the czar's first participant. The
/// plans are read by contracts alone.
fn driven_at<'s, R: Threads + Wait + Sync, G: Gate + Sync>(
    session: &ChildContext<'s, '_, R, G>,
    plans: &[QueryPlan<ChildBound>],
    queries: &[Option<&ChildBound>],
    planned: Vec<Option<Planned<ChildPiece<'s>>>>,
    board: &SharedBoard<ChildPiece<'s>>,
    seat: Seat<Board<ChildPiece<'s>>>,
) -> (
    Result<Vec<BoardEnd<ChildPiece<'s>>>, Memory>,
    Seat<Board<ChildPiece<'s>>>,
)
    requires few { session.now.workers ≤ WORKERS_MOST }
    requires plans { AreChildPlans session.now.world.now (query_lines session.now.script.now)
        (child_plans_of plans.now) }
    requires queries { query_values queries.now ≡ map query_in_plan (child_plans_of plans.now) }
    requires planned { planned.items ≡ map child_attached (child_plans_of plans.now) }
    requires seat { seat ≡ first_seat board.now
        (child_board_of session.now.world.now (child_plans_of plans.now)) }
    ensures driven { IfOk result.0 (λ ends. IsChildDriven session.now.workers
        session.now.world.now session.now.script.now.steps (child_plans_of plans.now)
        result.1.seen ends.items) }
    ensures made { IfOk result.0 (λ ends. result.1.made ≡ 1 + session.now.workers) }
    ensures manned { Manned ChildAsks seat.entry result.1 }
{
    bound_can_be_run();
    session.world.within_limits();
    let _ = session.script.queries();
    let engine = ChildEngine {
        alloc: session.alloc,
        world: session.world,
        queries,
    };
    let scan = Scan {
        alloc: session.alloc,
        rt: session.rt,
        boards: board,
        engine: &engine,
        gate: session.gate,
    };
    drive(
        &scan,
        seat,
        planned,
        session.script.steps(),
        session.workers,
    )
}
