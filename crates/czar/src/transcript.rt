//! The transcript of a script: the block of each query, by how it ended.

ghost use Rattle.std.specs.Prelude.{map};
ghost use Rattle.session_script.specs.Views.{query_lines};
ghost use Rattle.sky_io.specs.Sinks.{Wrote};
ghost use Rattle.transcript_rules.specs.Transcripts.{transcript};
ghost use Rattle.query_ends.specs.Ends.{kind_of};
ghost use Rattle.czar.specs.Ends.{EndsShow};

use chunk_store::Store;
use query_ends::{End, put_ends};
use session_script::Script;
use sky_io::{Put, Sink};

/// Writes the transcript of a script whose queries have these ends. Does not allocate.
pub fn put_transcript<K: Sink>(
    sink: &mut K,
    world: &Store,
    script: &Script<'_>,
    ends: &[End],
) -> Put
    requires shown { EndsShow world.now.plan world.now.rows (query_lines script.now) ends.now }
    ensures { Wrote (K.state sink.old) (K.state sink.new)
        (transcript world.now.plan world.now.rows script.now (map kind_of ends.now)) result }
{
    let schema = world.rows().schema();
    put_ends(sink, schema, script, ends)
}
