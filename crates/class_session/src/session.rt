//! The session of a script over two boards: a take asks the board of the short queries first.
ghost use Rattle.std.specs.Prelude.{◌≡◌, ◌+◌, ◌≤◌, IfOk, length, map};
ghost use Rattle.answer_rules.specs.Bases.{Asks};
ghost use Rattle.scan_rules.specs.declared.limits.TheConstants.{QUERY_MOST};
ghost use Rattle.session_rules.specs.declared.limits.TheConstants.{WORKERS_MOST};
ghost use Rattle.session_script.specs.Views.{query_lines};
ghost use Rattle.scan_session.specs.Crews.{Manned};
ghost use Rattle.scan_session.specs.Drove.{Drove};
ghost use Rattle.scan_session.specs.Places.{seen_of};
ghost use Rattle.transcript_rules.specs.Transcripts.{FitEnds};
ghost use Rattle.scan_classes.specs.Ends.{EachIsOfItsClass};
ghost use Rattle.scan_classes.specs.Pairs.{seat_at};
ghost use Rattle.scan_classes.specs.declared.class.Class.{Class};
ghost use Rattle.session_rules.specs.Numbers.{numbered_from};
ghost use Rattle.czar.specs.Attached.{attached, chunk_query, numbered};
ghost use Rattle.czar.specs.Driven.{IsDrivenBy, chunks_planned};
ghost use Rattle.query_ends.specs.Ends.{kind_of};
ghost use Rattle.czar.specs.Ends.{EndsShow};
ghost use Rattle.czar.specs.Plans.{ArePlans};
ghost use Rattle.query_ends.specs.States.{AreEndsIn};
ghost use Rattle.class_session.specs.ClassPlans.{IsFirstPair, class_at, classes_for, of_class};

use crate::boards::{classes_of, two_boards};
use answer_rules::ChunkQuery;
use czar::{
    ChunkEngine, End, Plan, SessionContext, World, all_attached, chunk_queries, explain,
    within_limits,
};
use partial_merge::Piece;
use scan_classes::lemmas::each_query_is_of_its_class_once_all_pairs_have_ended;
use scan_classes::{Class, ClassBoards, Classes, Pair};
use scan_session::{End as BoardEnd, Planned, Scan, drive};
use session_script::Script;
use sky_io::{Gate, Memory};
use std::alloc::Global;
use std::sync::Wait;
use std::thread::Threads;

/// Runs the queries of a script as `run_session` does, but over two boards: a query of at most 16 chunks is attached to
/// a board of its own class, which every take asks first. With the given number of workers on threads beside the caller,
/// which works too while it waits. Allocates memory, and waits. That there are two boards is visible in the contract of
/// `drive_classes`, and not in this one.
pub fn run_classes<R: Threads + Wait + Sync, G: Gate + Sync>(
    alloc: Global,
    rt: &R,
    world: &World<'_>,
    script: &Script<'_>,
    workers: u32,
    gate: &G,
) -> Result<Vec<End>, Memory>
    requires few { workers ≤ WORKERS_MOST }
    ensures fit { IfOk result (λ ends.
        FitEnds workers world.now.plan world.now.rows script.now (map kind_of ends.items)) }
    ensures shown { IfOk result (λ ends.
        EndsShow world.now.plan world.now.rows (query_lines script.now) ends.items) }
{
    let session = SessionContext {
        alloc,
        rt,
        world,
        script,
        workers,
        gate,
    };
    let plans = explain(alloc, world, script)?;
    let (classes, pair) = two_boards(&session, plans.as_slice())?;
    let (ends, pair) = drive_classes(&session, plans, &classes, pair);
    drop((classes, pair));
    ends
}

/// Drives the queries with these plans over the boards of two classes, from the czar's first pair, and returns the end of
/// each query, in their order. Allocates memory, and waits. On Memory, too, both boards are closed and the workers are
/// joined.
pub fn drive_classes<'s, R: Threads + Wait + Sync, G: Gate + Sync>(
    session: &SessionContext<'s, '_, R, G>,
    plans: Vec<Plan>,
    classes: &Classes<Piece<'s>>,
    pair: Pair<Piece<'s>>,
) -> (Result<Vec<End>, Memory>, Pair<Piece<'s>>)
    requires few { session.now.workers ≤ WORKERS_MOST }
    requires plans { ArePlans session.now.world.now.plan session.now.world.now.rows
        (query_lines session.now.script.now) plans.items }
    requires first { IsFirstPair session.now.world.now.plan session.now.world.now.rows plans.items
        classes.now pair }
    ensures drove { IfOk result.0 (λ ends. (class : Class) → Drove session.now.workers
        (of_class class (chunks_planned plans.items)) session.now.script.now.steps
        (seat_at result.1 class).seen) }
    ensures classes { EachIsOfItsClass result.1 }
    ensures made { IfOk result.0 (λ ends. (class : Class) →
        (seat_at result.1 class).made ≡ 1 + session.now.workers) }
    ensures manned { (class : Class) →
        Manned Asks (seat_at pair.entry class) (seat_at result.1 class) }
    ensures states { IfOk result.0 (λ ends. AreEndsIn
        (seen_of (class_at (chunks_planned plans.items)) (seat_at result.1))
        (map kind_of ends.items)) }
    ensures fit { IfOk result.0 (λ ends. FitEnds session.now.workers session.now.world.now.plan
        session.now.world.now.rows session.now.script.now (map kind_of ends.items)) }
    ensures shown { IfOk result.0 (λ ends. EndsShow session.now.world.now.plan
        session.now.world.now.rows (query_lines session.now.script.now) ends.items) }
{
    let (ends, pair) = driven(session, plans.as_slice(), classes, pair);
    each_query_is_of_its_class_once_all_pairs_have_ended(&pair);
    match ends {
        Ok(ends) => (session.query_ends(plans, ends), pair),
        Err(Memory) => {
            drop(plans);
            (Err(Memory), pair)
        }
    }
}

/// Drives the queries with these plans over the board of its class each, and returns the end of each at its board.
fn driven<'s, R: Threads + Wait + Sync, G: Gate + Sync>(
    session: &SessionContext<'s, '_, R, G>,
    plans: &[Plan],
    classes: &Classes<Piece<'s>>,
    pair: Pair<Piece<'s>>,
) -> (Result<Vec<BoardEnd<Piece<'s>>>, Memory>, Pair<Piece<'s>>)
    requires few { session.now.workers ≤ WORKERS_MOST }
    requires plans { ArePlans session.now.world.now.plan session.now.world.now.rows
        (query_lines session.now.script.now) plans.now }
    requires first { IsFirstPair session.now.world.now.plan session.now.world.now.rows plans.now
        classes.now pair }
    ensures drove { IfOk result.0 (λ ends. (class : Class) → Drove session.now.workers
        (of_class class (chunks_planned plans.now)) session.now.script.now.steps
        (seat_at result.1 class).seen) }
    ensures driven { IfOk result.0 (λ ends. IsDrivenBy session.now.workers
        session.now.world.now.plan session.now.world.now.rows session.now.script.now.steps
        plans.now (λ q. of_class (class_at (chunks_planned plans.now) q) (chunks_planned plans.now))
        (seen_of (class_at (chunks_planned plans.now)) (seat_at result.1)) ends.items) }
    ensures made { IfOk result.0 (λ ends. (class : Class) →
        (seat_at result.1 class).made ≡ 1 + session.now.workers) }
    ensures manned { (class : Class) →
        Manned Asks (seat_at pair.entry class) (seat_at result.1 class) }
{
    let _ = session.script.queries();
    match parts(session.alloc, plans) {
        Ok((queries, planned, of)) => {
            let boards = ClassBoards::new(classes, of);
            driven_at(session, plans, queries.as_slice(), planned, &boards, pair)
        }
        Err(Memory) => (Err(Memory), close_unused(session, plans, classes, pair)),
    }
}

/// Closes both boards, on which no session begins, from the czar's first pair. The plans are read by contracts alone.
fn close_unused<'s, R: Threads + Wait + Sync, G: Gate + Sync>(
    session: &SessionContext<'s, '_, R, G>,
    plans: &[Plan],
    classes: &Classes<Piece<'s>>,
    pair: Pair<Piece<'s>>,
) -> Pair<Piece<'s>>
    requires first { IsFirstPair session.now.world.now.plan session.now.world.now.rows plans.now
        classes.now pair }
    ensures manned { (class : Class) →
        Manned Asks (seat_at pair.entry class) (seat_at result class) }
{
    classes.close(session.rt, pair)
}

/// What is needed to drive queries: their chunk queries with their numbers, what is attached for each, and its class.
type Parts<'p, 's> = (
    Vec<(u32, &'p ChunkQuery)>,
    Vec<Option<Planned<Piece<'s>>>>,
    Vec<Class>,
);

/// Returns what is needed to drive the queries with these plans. Allocates memory.
fn parts<'p, 's>(alloc: Global, plans: &'p [Plan]) -> Result<Parts<'p, 's>, Memory>
    requires few { length plans.now ≤ QUERY_MOST }
    ensures queries { IfOk result (λ r.
        numbered r.0.items ≡ numbered_from 1 (map chunk_query plans.now)) }
    ensures planned { IfOk result (λ r. r.1.items ≡ map attached plans.now) }
    ensures classes { IfOk result (λ r. r.2.items ≡ classes_for plans.now) }
{
    let queries = chunk_queries(alloc, plans)?;
    let planned = all_attached(alloc, plans)?;
    let classes = classes_of(alloc, plans)?;
    Ok((queries, planned, classes))
}

/// Drives what is attached for the queries with these plans over both boards, from the czar's first pair. The plans are
/// read by contracts alone.
fn driven_at<'s, R: Threads + Wait + Sync, G: Gate + Sync>(
    session: &SessionContext<'s, '_, R, G>,
    plans: &[Plan],
    queries: &[(u32, &ChunkQuery)],
    planned: Vec<Option<Planned<Piece<'s>>>>,
    boards: &ClassBoards<'_, Piece<'s>>,
    pair: Pair<Piece<'s>>,
) -> (Result<Vec<BoardEnd<Piece<'s>>>, Memory>, Pair<Piece<'s>>)
    requires few { session.now.workers ≤ WORKERS_MOST }
    requires plans { ArePlans session.now.world.now.plan session.now.world.now.rows
        (query_lines session.now.script.now) plans.now }
    requires queries { numbered queries.now ≡ numbered_from 1 (map chunk_query plans.now) }
    requires planned { planned.items ≡ map attached plans.now }
    requires classes { boards.now.classes ≡ classes_for plans.now }
    requires first { IsFirstPair session.now.world.now.plan session.now.world.now.rows plans.now
        boards.now.turns pair }
    ensures drove { IfOk result.0 (λ ends. (class : Class) → Drove session.now.workers
        (of_class class (chunks_planned plans.now)) session.now.script.now.steps
        (seat_at result.1 class).seen) }
    ensures driven { IfOk result.0 (λ ends. IsDrivenBy session.now.workers
        session.now.world.now.plan session.now.world.now.rows session.now.script.now.steps
        plans.now (λ q. of_class (class_at (chunks_planned plans.now) q) (chunks_planned plans.now))
        (seen_of (class_at (chunks_planned plans.now)) (seat_at result.1)) ends.items) }
    ensures made { IfOk result.0 (λ ends. (class : Class) →
        (seat_at result.1 class).made ≡ 1 + session.now.workers) }
    ensures manned { (class : Class) →
        Manned Asks (seat_at pair.entry class) (seat_at result.1 class) }
{
    within_limits(session.world);
    let _ = session.script.queries();
    let engine = ChunkEngine {
        alloc: session.alloc,
        world: session.world.store(),
        queries,
    };
    let scan = Scan {
        alloc: session.alloc,
        rt: session.rt,
        boards,
        engine: &engine,
        gate: session.gate,
    };
    drive(
        &scan,
        pair,
        planned,
        session.script.steps(),
        session.workers,
    )
}
