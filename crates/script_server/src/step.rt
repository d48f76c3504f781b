//! A step of a session: a request is read, and its reply is written and sent.
ghost use Rattle.std.specs.Prelude.{◌≡◌, ◌≤◌, false, length};
ghost use Rattle.text_rules.specs.declared.limits.TheConstants.{SCRIPT_TEXT_MOST};
ghost use Rattle.session_rules.specs.declared.limits.TheConstants.{WORKERS_MOST};
ghost use Rattle.request_loop.specs.Sessions.{streams};
ghost use Rattle.request_loop.specs.Steps.{SentReply, Serves};
ghost use Rattle.script_server.specs.Answers.{IsAnswer, basis_of};

use crate::answer::answer_script;
use byte_source::Source;
use czar::World;
use request_loop::{Answered, Request, Session, after_last, after_reply, read_request, send_line};
use sky_io::{Gate, Put, Sink};
use std::alloc::Global;
use std::sync::Wait;
use std::thread::Threads;

/// Answers the next request, or says how the session has ended. Allocates memory, and waits.
pub(crate) fn serve_next<R: Threads + Wait + Sync, S: Source, K: Sink, G: Gate + Sync>(
    alloc: Global,
    rt: &R,
    world: &World<'_>,
    workers: u32,
    source: &mut S,
    sink: &mut K,
    gate: &G,
) -> Option<Session>
    requires few { workers ≤ WORKERS_MOST }
    requires sent { (K.state sink.old).held ≡ false }
    ensures { Serves (IsAnswer (basis_of world.now workers))
        (streams (S.state source.old) (S.state source.new) (K.state sink.old) (K.state sink.new))
        result }
{
    match read_request(alloc, rt, source, sink) {
        Request::Text(text) => {
            let put = put_reply(alloc, rt, world, workers, text.as_slice(), sink, gate);
            drop(text);
            after_reply(put)
        }
        Request::Long => after_reply(send_line(sink, b"+ script: too long\n")),
        Request::Memory => after_reply(send_line(sink, b"+ out of memory\n")),
        Request::Open => after_last(send_line(sink, b"+ request without end\n")),
        Request::Nothing => Some(Session::Done),
        Request::Failed => Some(Session::SourceFault),
    }
}

// Writes and sends the reply to a request.
fn put_reply<R: Threads + Wait + Sync, K: Sink, G: Gate + Sync>(
    alloc: Global,
    rt: &R,
    world: &World<'_>,
    workers: u32,
    request: &[u8],
    sink: &mut K,
    gate: &G,
) -> Put
    requires few { workers ≤ WORKERS_MOST }
    requires short { length request.now ≤ SCRIPT_TEXT_MOST }
    ensures { SentReply (IsAnswer (basis_of world.now workers)) request.now
        (K.state sink.old) (K.state sink.new) result }
{
    match answer_script(alloc, rt, world, workers, request, sink, gate) {
        Answered::Done => sink.flush_out(),
        Answered::Failed => Put::Failed,
        Answered::Memory => send_line(sink, b"+ out of memory\n"),
    }
}
