//! The outcomes of `serve`, and how they are reported.
ghost use Rattle.std.specs.Prelude.{◌≡◌};
ghost use Rattle.sky_io.specs.Sinks.{Wrote};
ghost use Rattle.script_server.specs.Outcomes.{serve_line, serve_status, session_line, session_status};
ghost use Rattle.top_call.specs.Words.{bytes_of};

use request_loop::Session;
use sky_io::{Put, Sink};
use top_call::{Outcome, put_outcome, status};

/// The outcome of `serve`.
#[derive(Drop)]
pub enum ServeOutcome {
    /// The arguments are no `SKY CSV WORKERS`.
    Usage,
    /// The survey was not loaded, or an allocation failed before the first request. No request was read.
    Stopped { outcome: Outcome },
    /// The session has ended.
    Ended { session: Session },
}

/// Returns the exit status. Does not allocate.
pub fn serve_status(outcome: &ServeOutcome) -> u8
    ensures { result ≡ serve_status outcome.now }
{
    match outcome {
        ServeOutcome::Usage => 2,
        ServeOutcome::Stopped { outcome } => status(outcome),
        ServeOutcome::Ended { session } => session_status(*session),
    }
}

// Returns the exit status of a session.
fn session_status(session: Session) -> u8
    ensures { result ≡ session_status session }
{
    match session {
        Session::Done => 0,
        Session::SourceFault => 7,
        Session::SinkFault => 8,
    }
}

/// Writes the line of an outcome with its line feed, and nothing if all requests were answered. The words are those of
/// the command that loads the same survey. Does not allocate.
pub fn put_serve_outcome<K: Sink>(sink: &mut K, outcome: &ServeOutcome, load: &[String]) -> Put
    ensures { Wrote (K.state sink.old) (K.state sink.new)
        (serve_line outcome.now (bytes_of load.now)) result }
{
    match outcome {
        ServeOutcome::Usage => sink.put(b"usage: qserv serve SKY CSV WORKERS\n"),
        ServeOutcome::Stopped { outcome } => put_outcome(sink, outcome, load),
        ServeOutcome::Ended { session } => put_session(sink, *session),
    }
}

// Writes the line of a session, and nothing if all requests were answered.
fn put_session<K: Sink>(sink: &mut K, session: Session) -> Put
    ensures { Wrote (K.state sink.old) (K.state sink.new) (session_line session) result }
{
    match session {
        Session::Done => Put::Done,
        Session::SourceFault => sink.put(b"input: cannot be read\n"),
        Session::SinkFault => sink.put(b"output failed\n"),
    }
}
