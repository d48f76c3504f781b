//! The transcript of a script over a child table: the block of each query, by how it ended.

ghost use Rattle.std.specs.Prelude.{map};
ghost use Rattle.session_script.specs.Views.{query_lines};
ghost use Rattle.sky_io.specs.Sinks.{Wrote};
ghost use Rattle.query_ends.specs.Ends.{kind_of};
ghost use Rattle.child_transcripts.specs.ChildTranscripts.{child_transcript};
ghost use Rattle.child_session.specs.ChildEnds.{ChildEndsShow};

use crate::world::ChildWorld;
use query_ends::{End, put_ends};
use session_script::Script;
use sky_io::{Put, Sink};

/// Writes the transcript of a script whose queries have these ends. Does not allocate. A child query lists its items, so no
/// heading is read from the schema of the objects.
pub fn put_child_transcript<K: Sink>(
    sink: &mut K,
    world: &ChildWorld<'_>,
    script: &Script<'_>,
    ends: &[End],
) -> Put
    requires shown { ChildEndsShow world.now (query_lines script.now) ends.now }
    ensures { Wrote (K.state sink.old) (K.state sink.new)
        (child_transcript world.now.plan world.now.rows world.now.table script.now
        (map kind_of ends.now)) result }
{
    let schema = world.store().rows().schema();
    put_ends(sink, schema, script, ends)
}
