//! The blocks of queries that end with neither an answer nor a refusal.
ghost use Rattle.std.specs.Prelude.{◌≡◌, ◌++◌, codes};
ghost use Rattle.sky_io.specs.Sinks.{Wrote};
ghost use Rattle.transcript_rules.specs.Blocks.{number_line};
ghost use Rattle.transcript_rules.specs.RefusalLines.{line};

use column_text::pieces::put_number_line;
use sky_io::{Put, Sink};

/// Writes the block of query `number`, which was cancelled. Does not allocate.
pub fn put_cancelled<K: Sink>(sink: &mut K, number: u32) -> Put
    ensures { Wrote (K.state sink.old) (K.state sink.new)
        (number_line number ++ line (codes "cancelled")) result }
{
    match put_number_line(sink, number) {
        Put::Failed => Put::Failed,
        Put::Done => sink.put(b"cancelled\n"),
    }
}

/// Writes the block of query `number`, whose answer was lost because an allocation failed. Does not allocate itself.
pub fn put_spent<K: Sink>(sink: &mut K, number: u32) -> Put
    ensures { Wrote (K.state sink.old) (K.state sink.new)
        (number_line number ++ line (codes "out of memory")) result }
{
    match put_number_line(sink, number) {
        Put::Failed => Put::Failed,
        Put::Done => sink.put(b"out of memory\n"),
    }
}
