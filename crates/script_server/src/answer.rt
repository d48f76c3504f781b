//! A script over a survey: it is read, its queries are run, and its answer is written.
ghost use Rattle.std.specs.Prelude.{◌≡◌, ◌≤◌, length, map};
ghost use Rattle.text_rules.specs.declared.limits.TheConstants.{SCRIPT_TEXT_MOST};
ghost use Rattle.session_rules.specs.declared.limits.TheConstants.{WORKERS_MOST};
ghost use Rattle.session_script.specs.Views.{query_lines};
ghost use Rattle.sky_io.specs.Sinks.{Wrote};
ghost use Rattle.query_ends.specs.Ends.{kind_of};
ghost use Rattle.czar.specs.Ends.{EndsShow};
ghost use Rattle.request_loop.specs.Replies.{Answering};
ghost use Rattle.script_server.specs.Answers.{IsAnswer, answered_text, basis_of, faulty_line};
ghost use Rattle.script_server.specs.Steps.{AnswersScript, answered_by};

use chunk_store::Store;
use czar::{End, World, put_transcript, run_session};
use request_loop::Answered;
use session_script::{Script, ScriptFault};
use sky_io::{Gate, Put, Sink, Stop};
use std::alloc::Global;
use std::sync::Wait;
use std::thread::Threads;
use top_call::put_script_fault;

/// Writes the answer to a request, given by its text: the transcript of a script, or the line of its first fault.
/// Allocates memory, and waits for the threads that it starts.
pub(crate) fn answer_script<R: Threads + Wait + Sync, K: Sink, G: Gate + Sync>(
    alloc: Global,
    rt: &R,
    world: &World<'_>,
    workers: u32,
    request: &[u8],
    sink: &mut K,
    gate: &G,
) -> Answered
    requires few { workers ≤ WORKERS_MOST }
    requires short { length request.now ≤ SCRIPT_TEXT_MOST }
    ensures { Answering (IsAnswer (basis_of world.now workers)) request.now
        (K.state sink.old) (K.state sink.new) result }
{
    match Script::read(alloc, request) {
        Ok(script) => run_script(alloc, rt, world, workers, &script, sink, gate),
        Err(Stop::Bad(fault)) => answered(put_fault(sink, &fault)),
        Err(Stop::Memory) => Answered::Memory,
    }
}

// Runs the queries of a script, and writes their transcript.
fn run_script<R: Threads + Wait + Sync, K: Sink, G: Gate + Sync>(
    alloc: Global,
    rt: &R,
    world: &World<'_>,
    workers: u32,
    script: &Script<'_>,
    sink: &mut K,
    gate: &G,
) -> Answered
    requires { workers ≤ WORKERS_MOST }
    ensures { AnswersScript (basis_of world.now workers) script.now
        (K.state sink.old) (K.state sink.new) result }
{
    match run_session(alloc, rt, world, script, workers, gate) {
        Ok(ends) => answered(put_answer(sink, world.store(), script, ends.as_slice())),
        Err(_) => Answered::Memory,
    }
}

// Writes the transcript of a script whose queries have these ends, and the line that ends it.
#[tactic(auto, using(sky_io::proofs::Writes::wrote_one))]
fn put_answer<K: Sink>(sink: &mut K, store: &Store, script: &Script<'_>, ends: &[End]) -> Put
    requires { EndsShow store.now.plan store.now.rows (query_lines script.now) ends.now }
    ensures { Wrote (K.state sink.old) (K.state sink.new)
        (answered_text store.now script.now (map kind_of ends.now)) result }
{
    match put_transcript(sink, store, script, ends) {
        Put::Failed => Put::Failed,
        Put::Done => sink.put(b"+ ok\n"),
    }
}

// Writes the line of a script's fault.
#[tactic(auto, using(sky_io::proofs::Writes::wrote_one))]
fn put_fault<K: Sink>(sink: &mut K, fault: &ScriptFault) -> Put
    ensures { Wrote (K.state sink.old) (K.state sink.new) (faulty_line fault.now) result }
{
    match sink.put(b"+ ") {
        Put::Failed => Put::Failed,
        Put::Done => put_script_fault(sink, fault),
    }
}

// Returns the result of an answer that was written, or not.
fn answered(put: Put) -> Answered
    ensures { result ≡ answered_by put }
{
    match put {
        Put::Done => Answered::Done,
        Put::Failed => Answered::Failed,
    }
}
