//! The parts of a step of a session that are the same for all requests: a line that is sent, and what comes after it.
ghost use Rattle.request_loop.specs.Steps.{AfterLast, AfterReply, Sent};

use crate::session::Session;
use sky_io::{Put, Sink};

/// Writes and sends a line. Does not allocate.
pub fn send_line<K: Sink>(sink: &mut K, line: &[u8]) -> Put
    ensures { Sent (K.state sink.old) (K.state sink.new) line.now result }
{
    match sink.put(line) {
        Put::Failed => Put::Failed,
        Put::Done => sink.flush_out(),
    }
}

/// Returns how the session ends after a reply, if the sink failed at it, or `None` if the session goes on. Does not
/// allocate.
pub fn after_reply(put: Put) -> Option<Session>
    ensures { AfterReply put result }
{
    match put {
        Put::Done => None,
        Put::Failed => Some(Session::SinkFault),
    }
}

/// Returns how the session ends after its last line: done, or with a fault of the sink. Does not allocate.
pub fn after_last(put: Put) -> Option<Session>
    ensures { AfterLast put result }
{
    match put {
        Put::Done => Some(Session::Done),
        Put::Failed => Some(Session::SinkFault),
    }
}
