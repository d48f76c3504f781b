//! A session over a survey: all requests of an input are answered, one after another.
ghost use Rattle.std.specs.Prelude.{◌≡◌, ◌≤◌, false};
ghost use Rattle.session_rules.specs.declared.limits.TheConstants.{WORKERS_MOST};
ghost use Rattle.request_loop.specs.Sessions.{IsSession, streams};
ghost use Rattle.script_server.specs.Answers.{IsAnswer, basis_of};

use crate::step::serve_next;
use byte_source::Source;
use czar::World;
use request_loop::Session;
use sky_io::{Gate, Put, Sink};
use std::alloc::Global;
use std::sync::Wait;
use std::thread::Threads;

/// Answers the requests of a source one after another, until it is at its end. A reply is written and sent before the
/// next request is read. A text above the limit is not kept. A request for which an allocation fails has that as its
/// reply, and the session goes on. Allocates memory for one request at a time, and waits for the source and for the
/// threads that it starts.
pub(crate) fn serve<R: Threads + Wait + Sync, S: Source, K: Sink, G: Gate + Sync>(
    alloc: Global,
    rt: &R,
    world: &World<'_>,
    workers: u32,
    source: &mut S,
    sink: &mut K,
    gate: &G,
) -> Session
    requires { workers ≤ WORKERS_MOST }
    ensures { IsSession (IsAnswer (basis_of world.now workers))
        (streams (S.state source.old) (S.state source.new) (K.state sink.old) (K.state sink.new))
        result }
{
    match sink.flush_out() {
        Put::Failed => Session::SinkFault,
        Put::Done => serve_all(alloc, rt, world, workers, source, sink, gate),
    }
}

// Answers all requests, to a sink that holds nothing back.
fn serve_all<R: Threads + Wait + Sync, S: Source, K: Sink, G: Gate + Sync>(
    alloc: Global,
    rt: &R,
    world: &World<'_>,
    workers: u32,
    source: &mut S,
    sink: &mut K,
    gate: &G,
) -> Session
    requires few { workers ≤ WORKERS_MOST }
    requires sent { (K.state sink.old).held ≡ false }
    ensures { IsSession (IsAnswer (basis_of world.now workers))
        (streams (S.state source.old) (S.state source.new) (K.state sink.old) (K.state sink.new))
        result }
{
    for _ in rt.forever() {
        match serve_next(alloc, rt, world, workers, source, sink, gate) {
            None => {}
            Some(session) => return session,
        }
    }
    unreachable!()
}
