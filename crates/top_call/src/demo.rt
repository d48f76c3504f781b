//! The demo, whose texts are generated and not fetched: a sky plan, a catalogue that is drawn from a seed, and a
//! script.
ghost use Rattle.std.specs.Prelude.{◌≡◌, ◌≤◌, ◌^◌, IfOk};
ghost use Rattle.table_rules.specs.declared.limits.TheConstants.{ROWS_MOST};
ghost use Rattle.demo_rules.specs.declared.limits.TheConstants.{SEED_MOST};
ghost use Rattle.top_call.specs.Jobs.{IsDemoSurvey};
ghost use Rattle.top_call.specs.ScriptWork.{IsDemo, IsDemoOver};
ghost use Rattle.session_rules.specs.declared.limits.TheConstants.{WORKERS_MOST};

use crate::outcome::Outcome;
use crate::task::Task;
use crate::work::do_task;
use chunk_store::Store;
use demo_answers::laws::demo_is_answered;
use demo_answers::texts::{demo_script_is_accepted, demo_sky_is_accepted};
use sky_generate::{demo_script, demo_sky, rows_by};
use sky_io::{Gate, Memory, Sink};
use sky_plan::SkyPlan;
use std::alloc::Global;
use std::sync::Wait;
use std::thread::Threads;

/// Answers the queries of the demo's script with the given number of workers. They range over the demo's sky plan and
/// the given number of objects, drawn from a seed. Allocates memory, and waits. The shelf is not used.
pub fn run_demo<R: Threads + Wait + Sync, K: Sink, G: Gate + Sync>(
    alloc: Global,
    rt: &R,
    count: u32,
    seed: u32,
    workers: u32,
    sink: &mut K,
    gate: &G,
) -> Outcome
    requires few { count ≤ ROWS_MOST }
    requires first { 1 ≤ seed }
    requires last { seed ≤ SEED_MOST }
    requires manned { workers ≤ WORKERS_MOST }
    ensures { IsDemo count seed workers (K.state sink.old) (K.state sink.new) result }
{
    // None of its queries is refused.
    demo_is_answered();
    demo_sky_is_accepted();
    demo_script_is_accepted();
    match demo_store(alloc, rt, workers + 1, count, seed) {
        Ok(store) => answer_demo(alloc, rt, store, workers, sink, gate),
        Err(_) => Outcome::Memory,
    }
}

// Returns the store of the demo's catalogue under its sky plan, drawn and built by the given number of threads.
fn demo_store<R: Threads + Sync>(
    alloc: Global,
    rt: &R,
    threads: u32,
    count: u32,
    seed: u32,
) -> Result<Store, Memory>
    requires few { count ≤ ROWS_MOST }
    requires first { 1 ≤ seed }
    requires last { seed ≤ SEED_MOST }
    ensures { IfOk result (λ store. IsDemoSurvey count seed store) }
{
    // The text is a sky plan, so only an allocation can fail.
    demo_sky_is_accepted();
    let Ok(plan) = SkyPlan::read(alloc, demo_sky()) else {
        return Err(Memory);
    };
    let rows = rows_by(rt, alloc, threads, count, seed)?;
    Store::build(rt, alloc, threads, plan, rows)
}

// Answers the queries of the demo's script.
fn answer_demo<R: Threads + Wait + Sync, K: Sink, G: Gate + Sync>(
    alloc: Global,
    rt: &R,
    store: Store,
    workers: u32,
    sink: &mut K,
    gate: &G,
) -> Outcome
    requires { workers ≤ WORKERS_MOST }
    ensures { IsDemoOver workers store (K.state sink.old) (K.state sink.new) result }
{
    // The text is a script, so it is not refused.
    demo_script_is_accepted();
    do_task(
        alloc,
        rt,
        Task::Answer { workers },
        store,
        demo_script(),
        sink,
        gate,
    )
}
