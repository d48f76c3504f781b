//! The answers of a script over objects and their sources: the sky plan, the catalogue and the source table are read, the
//! stores are built, and then the script is fetched, read and answered.
//!
//! The world of the objects borrows their store, and the store of the sources borrows both, so each is built by a call of
//! its own, and dropped by name once the next has ended.
ghost use Rattle.std.specs.Prelude.{◌≤◌, ℕ, length, map};
ghost use Rattle.text_rules.specs.declared.limits.TheConstants.{SCRIPT_TEXT_MOST};
ghost use Rattle.session_rules.specs.declared.limits.TheConstants.{WORKERS_MOST};
ghost use Rattle.session_script.specs.Views.{query_lines};
ghost use Rattle.query_ends.specs.Ends.{kind_of};
ghost use Rattle.child_transcripts.specs.ChildTranscripts.{ChildFitEnds};
ghost use Rattle.child_session.specs.ChildEnds.{ChildEndsShow};
ghost use Rattle.top_call.specs.Words.{AsksSources};
ghost use Rattle.top_call.specs.Jobs.{RunsChildren, tables_of};
ghost use Rattle.top_call.specs.Explained.{ExplainedOf, shown};
ghost use Rattle.top_call.specs.ScriptWork.{IsScriptRun, IsWorkOver};
ghost use Rattle.top_call.specs.Steps.{IsWritten};

use crate::ends::kinds_of;
use crate::inputs::{fetch_script, fetch_tables};
use crate::outcome::Outcome;
use crate::words::SourceNames;
use crate::work::send;
use child_session::{ChildEnd, ChildWorld, put_child_transcript, run_children};
use chunk_store::Store;
use czar::World;
use session_script::Script;
use sky_io::{Gate, Put, Shelf, Sink, Stop};
use source_row::Sources;
use source_store::SourceStore;
use std::alloc::Global;
use std::sync::Wait;
use std::thread::Threads;

/// Answers the queries of the named script over the named sky plan, catalogue and source table, with the given number of
/// workers. Allocates memory, and waits.
pub fn run_sources<R: Threads + Wait + Sync, S: Shelf, K: Sink, G: Gate + Sync>(
    alloc: Global,
    rt: &R,
    workers: u32,
    names: &SourceNames<'_>,
    shelf: &mut S,
    sink: &mut K,
    gate: &G,
) -> Outcome
    requires { workers ≤ WORKERS_MOST }
    ensures { ExplainedOf (AsksSources workers names.now.sky.now names.now.catalogue.now
        names.now.sources.now names.now.script.now)
        (shown (S.state shelf.old) (S.state shelf.new) (K.state sink.old) (K.state sink.new))
        result }
{
    match fetch_tables(alloc, rt, workers + 1, shelf, names) {
        Ok((store, sources)) => {
            let crew = Crew {
                alloc,
                rt,
                workers,
                gate,
            };
            let outcome = over_store(&crew, names.script, &store, sources, shelf, sink);
            drop(store);
            outcome
        }
        Err(outcome) => outcome,
    }
}

// The means to answer the queries of a script: they stay the same until it is answered.
#[derive(Drop)]
struct Crew<'c, R, G> {
    alloc: Global,
    rt: &'c R,
    // Beside the czar.
    workers: u32,
    gate: &'c G,
}

// Indexes the ids of a store, and answers the named script over it and these sources.
fn over_store<R: Threads + Wait + Sync, S: Shelf, K: Sink, G: Gate + Sync>(
    crew: &Crew<'_, R, G>,
    script: &str,
    store: &Store,
    sources: Sources,
    shelf: &mut S,
    sink: &mut K,
) -> Outcome
    requires { crew.now.workers ≤ WORKERS_MOST }
    ensures { IsScriptRun (RunsChildren crew.now.workers (tables_of store.now sources)) script.now
        (S.state shelf.old) (S.state shelf.new) (K.state sink.old) (K.state sink.new) result }
{
    match World::new(crew.alloc, store) {
        Ok(world) => {
            let outcome = over_world(crew, script, &world, sources, shelf, sink);
            drop(world);
            outcome
        }
        Err(_) => {
            drop(sources);
            Outcome::Memory
        }
    }
}

// Builds the store of these sources, and answers the named script over it and the world of the objects.
fn over_world<R: Threads + Wait + Sync, S: Shelf, K: Sink, G: Gate + Sync>(
    crew: &Crew<'_, R, G>,
    script: &str,
    world: &World<'_>,
    sources: Sources,
    shelf: &mut S,
    sink: &mut K,
) -> Outcome
    requires { crew.now.workers ≤ WORKERS_MOST }
    ensures { IsScriptRun (RunsChildren crew.now.workers (tables_of world.now sources)) script.now
        (S.state shelf.old) (S.state shelf.new) (K.state sink.old) (K.state sink.new) result }
{
    match SourceStore::build(crew.alloc, world.store(), world.index(), sources) {
        Ok(made) => {
            let tables = ChildWorld::new(world, &made);
            let outcome = over_tables(crew, script, &tables, shelf, sink);
            drop(made);
            outcome
        }
        Err(_) => Outcome::Memory,
    }
}

// Fetches the named script, and answers it over both tables.
fn over_tables<R: Threads + Wait + Sync, S: Shelf, K: Sink, G: Gate + Sync>(
    crew: &Crew<'_, R, G>,
    script: &str,
    tables: &ChildWorld<'_>,
    shelf: &mut S,
    sink: &mut K,
) -> Outcome
    requires { crew.now.workers ≤ WORKERS_MOST }
    ensures { IsScriptRun (RunsChildren crew.now.workers tables.now) script.now
        (S.state shelf.old) (S.state shelf.new) (K.state sink.old) (K.state sink.new) result }
{
    match fetch_script(crew.alloc, shelf, script) {
        Ok(text) => work_on_text(crew, tables, text.as_slice(), sink),
        Err(outcome) => outcome,
    }
}

// Reads a script, and answers it over both tables.
fn work_on_text<R: Threads + Wait + Sync, K: Sink, G: Gate + Sync>(
    crew: &Crew<'_, R, G>,
    tables: &ChildWorld<'_>,
    text: &[u8],
    sink: &mut K,
) -> Outcome
    requires short { length text.now ≤ SCRIPT_TEXT_MOST }
    requires few { crew.now.workers ≤ WORKERS_MOST }
    ensures { IsWorkOver (RunsChildren crew.now.workers tables.now) text.now
        (K.state sink.old) (K.state sink.new) result }
{
    match Script::read(crew.alloc, text) {
        Ok(script) => answer_script(crew, tables, &script, sink),
        Err(Stop::Bad(fault)) => Outcome::BadScript { fault },
        Err(Stop::Memory) => Outcome::Memory,
    }
}

// Answers a script over both tables.
fn answer_script<R: Threads + Wait + Sync, K: Sink, G: Gate + Sync>(
    crew: &Crew<'_, R, G>,
    tables: &ChildWorld<'_>,
    script: &Script<'_>,
    sink: &mut K,
) -> Outcome
    requires { crew.now.workers ≤ WORKERS_MOST }
    ensures { IsWritten (RunsChildren crew.now.workers tables.now script.now)
        (K.state sink.old) (K.state sink.new) result }
{
    match run_children(crew.alloc, crew.rt, tables, script, crew.workers, crew.gate) {
        Ok(ends) => write_answers(crew.alloc, tables, script, ends.as_slice(), sink),
        Err(_) => Outcome::Memory,
    }
}

// Writes the transcript of a script whose queries have these ends, and sends it. What is written is the transcript for
// any number of workers with which they may end so. The list of how they ended is created before the first byte is
// written.
fn write_answers<K: Sink>(
    alloc: Global,
    tables: &ChildWorld<'_>,
    script: &Script<'_>,
    ends: &[ChildEnd],
    sink: &mut K,
) -> Outcome
    requires { ChildEndsShow tables.now (query_lines script.now) ends.now }
    ensures { (workers : ℕ)
        → ChildFitEnds workers tables.now.plan tables.now.rows tables.now.table script.now
        (map kind_of ends.now)
        → IsWritten (RunsChildren workers tables.now script.now)
        (K.state sink.old) (K.state sink.new) result }
{
    let Ok(kinds) = kinds_of(alloc, ends) else {
        return Outcome::Memory;
    };
    match put_child_transcript(sink, tables, script, ends) {
        Put::Failed => Outcome::SinkFault { ends: kinds },
        Put::Done => send(sink, kinds),
    }
}
