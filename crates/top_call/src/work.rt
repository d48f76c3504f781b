//! The work of a command whose texts were fetched, and its writing.
//!
//! The store and the index of its ids are dropped by name, which is one call; a value that goes out of scope is dropped
//! part by part. All memory is allocated before the first byte is written: for the store, its index, the answers, and
//! the list of how the queries ended.
ghost use Rattle.std.specs.Prelude.{◌≡◌, ◌≤◌, ◌^◌, ℕ, [], IfOk, length, map};
ghost use Rattle.text_rules.specs.declared.limits.TheConstants.{SCRIPT_TEXT_MOST};
ghost use Rattle.session_script.specs.Views.{query_lines};
ghost use Rattle.transcript_rules.specs.Transcripts.{FitEnds};
ghost use Rattle.query_ends.specs.Ends.{kind_of};
ghost use Rattle.czar.specs.Ends.{EndsShow};
ghost use Rattle.czar.specs.Plans.{ArePlans};
ghost use Rattle.top_call.specs.Jobs.{Explains, Reports, Runs, job_on};
ghost use Rattle.top_call.specs.ScriptWork.{IsTaskOver};
ghost use Rattle.top_call.specs.Steps.{IsFlushed, IsWritten};
ghost use Rattle.top_call.specs.Words.{IsManned};

use crate::ends::{kinds_of, no_ends};
use crate::outcome::Outcome;
use crate::task::Task;
use crate::trace::trace_queries;
use answer_text::put_report;
use chunk_store::Store;
use class_session::run_classes;
use czar::{End, Plan, World, explain, put_explained, put_transcript, run_session};
use session_rules::Ends;
use session_script::Script;
use sky_io::{Gate, Memory, Put, Sink, Stop};
use std::alloc::Global;
use std::sync::Wait;
use std::thread::Threads;

/// Writes the report of the rows in their chunks. Allocates memory.
pub fn report<K: Sink>(alloc: Global, store: Store, sink: &mut K) -> Outcome
    ensures { IsWritten (Reports store) (K.state sink.old) (K.state sink.new) result }
{
    let outcome = write_report(alloc, &store, sink);
    drop(store);
    outcome
}

/// Reads a script and executes the task on it, over a store and the index of its ids. Allocates memory, and waits.
pub fn do_task<R: Threads + Wait + Sync, K: Sink, G: Gate + Sync>(
    alloc: Global,
    rt: &R,
    task: Task,
    store: Store,
    text: &[u8],
    sink: &mut K,
    gate: &G,
) -> Outcome
    requires short { length text.now ≤ SCRIPT_TEXT_MOST }
    requires manned { IsManned task }
    ensures { IsTaskOver task store text.now
        (K.state sink.old) (K.state sink.new) result }
{
    let outcome = task_over(alloc, rt, task, &store, text, sink, gate);
    drop(store);
    outcome
}

// Indexes the ids of a store, and executes the task on a script over it.
fn task_over<R: Threads + Wait + Sync, K: Sink, G: Gate + Sync>(
    alloc: Global,
    rt: &R,
    task: Task,
    store: &Store,
    text: &[u8],
    sink: &mut K,
    gate: &G,
) -> Outcome
    requires short { length text.now ≤ SCRIPT_TEXT_MOST }
    requires manned { IsManned task }
    ensures { IsTaskOver task store.now text.now
        (K.state sink.old) (K.state sink.new) result }
{
    match World::new(alloc, store) {
        Ok(world) => {
            let outcome = task_on_text(alloc, rt, task, &world, text, sink, gate);
            drop(world);
            outcome
        }
        Err(_) => Outcome::Memory,
    }
}

// Reads a script and executes the task on it.
fn task_on_text<R: Threads + Wait + Sync, K: Sink, G: Gate + Sync>(
    alloc: Global,
    rt: &R,
    task: Task,
    world: &World<'_>,
    text: &[u8],
    sink: &mut K,
    gate: &G,
) -> Outcome
    requires short { length text.now ≤ SCRIPT_TEXT_MOST }
    requires manned { IsManned task }
    ensures { IsTaskOver task world.now text.now
        (K.state sink.old) (K.state sink.new) result }
{
    match Script::read(alloc, text) {
        Ok(script) => do_script(alloc, rt, task, world, &script, sink, gate),
        Err(Stop::Bad(fault)) => Outcome::BadScript { fault },
        Err(Stop::Memory) => Outcome::Memory,
    }
}

// Executes the task on a script.
fn do_script<R: Threads + Wait + Sync, K: Sink, G: Gate + Sync>(
    alloc: Global,
    rt: &R,
    task: Task,
    world: &World<'_>,
    script: &Script<'_>,
    sink: &mut K,
    gate: &G,
) -> Outcome
    requires { IsManned task }
    ensures { IsWritten (job_on task world.now script.now)
        (K.state sink.old) (K.state sink.new) result }
{
    match task {
        Task::Answer { workers } => {
            let ends = run_session(alloc, rt, world, script, workers, gate);
            write_ends(alloc, world, script, ends, sink)
        }
        Task::ByClass { workers } => {
            let ends = run_classes(alloc, rt, world, script, workers, gate);
            write_ends(alloc, world, script, ends, sink)
        }
        Task::Trace { workers } => { trace_queries(alloc, rt, world, script, workers, sink, gate) }
        Task::Explain => explain_queries(alloc, world, script, sink),
    }
}

// Explains the queries of a script, and writes the explanation.
fn explain_queries<K: Sink>(
    alloc: Global,
    world: &World<'_>,
    script: &Script<'_>,
    sink: &mut K,
) -> Outcome
    ensures { IsWritten (Explains world.now script.now)
        (K.state sink.old) (K.state sink.new) result }
{
    match explain(alloc, world, script) {
        Ok(plans) => write_explained(alloc, world, script, plans.as_slice(), sink),
        Err(_) => Outcome::Memory,
    }
}

// Writes the report of a store and sends it.
fn write_report<K: Sink>(alloc: Global, store: &Store, sink: &mut K) -> Outcome
    ensures { IsWritten (Reports store.now) (K.state sink.old) (K.state sink.new) result }
{
    let ends = no_ends(alloc);
    match put_report(sink, store) {
        Put::Failed => Outcome::SinkFault { ends },
        Put::Done => send(sink, ends),
    }
}

// Writes the transcript of a script with the ends that its session returned, and sends it; without ends an allocation
// failed. What is written is the transcript for any number of workers with which they may end so.
fn write_ends<K: Sink>(
    alloc: Global,
    world: &World<'_>,
    script: &Script<'_>,
    ends: Result<Vec<End>, Memory>,
    sink: &mut K,
) -> Outcome
    requires { IfOk ends (λ ends.
        EndsShow world.now.plan world.now.rows (query_lines script.now) ends.items) }
    ensures { (workers : ℕ)
        → IfOk ends (λ ends.
        FitEnds workers world.now.plan world.now.rows script.now (map kind_of ends.items))
        → IsWritten (Runs workers world.now script.now) (K.state sink.old) (K.state sink.new) result }
{
    match ends {
        Ok(ends) => write_transcript(alloc, world.store(), script, ends.as_slice(), sink),
        Err(_) => Outcome::Memory,
    }
}

// Writes the transcript of a script whose queries have these ends, and sends it. What is written is the transcript for
// any number of workers with which they may end so. The list of how they ended is created before the first byte is
// written.
fn write_transcript<K: Sink>(
    alloc: Global,
    store: &Store,
    script: &Script<'_>,
    ends: &[End],
    sink: &mut K,
) -> Outcome
    requires { EndsShow store.now.plan store.now.rows (query_lines script.now) ends.now }
    ensures { (workers : ℕ)
        → FitEnds workers store.now.plan store.now.rows script.now (map kind_of ends.now)
        → IsWritten (Runs workers store.now script.now) (K.state sink.old) (K.state sink.new) result }
{
    let Ok(kinds) = kinds_of(alloc, ends) else {
        return Outcome::Memory;
    };
    match put_transcript(sink, store, script, ends) {
        Put::Failed => Outcome::SinkFault { ends: kinds },
        Put::Done => send(sink, kinds),
    }
}

// Writes the explanation of a script with these plans, and sends it.
fn write_explained<K: Sink>(
    alloc: Global,
    world: &World<'_>,
    script: &Script<'_>,
    plans: &[Plan],
    sink: &mut K,
) -> Outcome
    requires { ArePlans world.now.plan world.now.rows (query_lines script.now) plans.now }
    ensures { IsWritten (Explains world.now script.now)
        (K.state sink.old) (K.state sink.new) result }
{
    let ends = no_ends(alloc);
    match put_explained(sink, world, script, plans) {
        Put::Failed => Outcome::SinkFault { ends },
        Put::Done => send(sink, ends),
    }
}

/// Sends the bytes that are held back, once all is written.
pub(crate) fn send<K: Sink>(sink: &mut K, ends: Ends) -> Outcome
    ensures { IsFlushed ends (K.state sink.old) (K.state sink.new) result }
{
    match sink.flush_out() {
        Put::Failed => Outcome::SinkFault { ends },
        Put::Done => Outcome::Done { ends },
    }
}
