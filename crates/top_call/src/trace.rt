//! The trace of a script: its queries are answered, and the journal of the session is written.
//!
//! As in `work`, all that allocates memory is created before the first byte is written, and what is large is dropped by
//! name.
ghost use Rattle.std.specs.Prelude.{◌≤◌, ℕ, map};
ghost use Rattle.session_rules.specs.declared.limits.TheConstants.{WORKERS_MOST};
ghost use Rattle.session_script.specs.Views.{ScriptView};
ghost use Rattle.chunk_store.specs.Survey.{Survey};
ghost use Rattle.transcript_rules.specs.Transcripts.{FitEnds};
ghost use Rattle.query_ends.specs.Ends.{kind_of};
ghost use Rattle.czar.specs.Traces.{IsTraceOf};
ghost use Rattle.top_call.specs.Jobs.{Traces};
ghost use Rattle.top_call.specs.Steps.{IsWritten};

use crate::ends::kinds_of;
use crate::outcome::Outcome;
use crate::work::send;
use czar::{End, World, run_traced};
use scan_history::put_journal;
use scan_rules::Journal;
use session_script::Script;
use sky_io::{Gate, Put, Sink};
use std::alloc::Global;
use std::sync::Wait;
use std::thread::Threads;

/// Answers the queries of a script with the given number of workers, and writes the journal of the session. Allocates
/// memory, and waits.
pub fn trace_queries<R: Threads + Wait + Sync, K: Sink, G: Gate + Sync>(
    alloc: Global,
    rt: &R,
    world: &World<'_>,
    script: &Script<'_>,
    workers: u32,
    sink: &mut K,
    gate: &G,
) -> Outcome
    requires { workers ≤ WORKERS_MOST }
    ensures { IsWritten (Traces workers world.now script.now)
        (K.state sink.old) (K.state sink.new) result }
{
    match run_traced(alloc, rt, world, script, workers, gate) {
        Ok((ends, journal)) => {
            let outcome = write_trace(alloc, ends.as_slice(), &journal, sink);
            drop(journal);
            outcome
        }
        Err(_) => Outcome::Memory,
    }
}

// Writes a journal, and sends it. It is the trace of each session that may leave it, with queries that end so. The list of
// how they ended is created before the first byte is written.
fn write_trace<K: Sink>(alloc: Global, ends: &[End], journal: &Journal, sink: &mut K) -> Outcome
    ensures { (workers : ℕ) (survey : Survey) (view : ScriptView)
        → FitEnds workers survey.plan survey.rows view (map kind_of ends.now)
        → IsTraceOf workers survey.plan survey.rows view (map kind_of ends.now) journal.now
        → IsWritten (Traces workers survey view) (K.state sink.old) (K.state sink.new) result }
{
    let Ok(kinds) = kinds_of(alloc, ends) else {
        return Outcome::Memory;
    };
    match put_journal(sink, journal) {
        Put::Failed => Outcome::SinkFault { ends: kinds },
        Put::Done => send(sink, kinds),
    }
}
