//! The lines that report the fault of a script.
ghost use Rattle.std.specs.Prelude.{◌≡◌, ◌++◌, codes};
ghost use Rattle.sky_io.specs.Sinks.{Wrote};
ghost use Rattle.top_call.specs.FaultLines.{numbered, script_line, script_place};

use crate::fault_lines::{put_numbered, put_place};
use session_script::ScriptFault;
use sky_io::{Put, Sink};

/// Writes the line of a script's fault. Does not allocate.
pub fn put_script_fault<K: Sink>(sink: &mut K, fault: &ScriptFault) -> Put
    ensures { Wrote (K.state sink.old) (K.state sink.new) (script_line fault.now) result }
{
    match fault {
        ScriptFault::UnknownQuery { line, number } => put_unknown(sink, *line, *number),
        ScriptFault::LineTooLong { line } => {
            put_numbered(sink, b"script line ", *line, b": too long\n")
        }
        ScriptFault::TooManyQueries { line } => {
            put_numbered(sink, b"script line ", *line, b": too many queries\n")
        }
    }
}

// Writes the line that names a query that does not exist.
fn put_unknown<K: Sink>(sink: &mut K, line: u32, number: u32) -> Put
    ensures { Wrote (K.state sink.old) (K.state sink.new)
        (script_place line (numbered (codes ": unknown query ") number (codes "\n"))) result }
{
    match put_place(sink, b"script line ", line) {
        Put::Failed => Put::Failed,
        Put::Done => put_numbered(sink, b": unknown query ", number, b"\n"),
    }
}
