//! The text of a script's ends: the block of each query, by how it ended.

ghost use Rattle.std.specs.Prelude.{◌≡◌, length};
ghost use Rattle.text_rules.specs.Readings.{joined};
ghost use Rattle.sky_io.specs.Sinks.{Wrote};
ghost use Rattle.session_script.specs.Scripts.{query_count};
ghost use Rattle.query_ends.specs.EndTexts.{end_block, end_blocks};

use crate::end::End;
use answer_text::{Blocks, Shown, put_blocks, put_cancelled, put_refusal, put_spent, put_table};
use session_script::Script;
use sky_io::{Put, Sink};
use sky_row::Schema;

/// Writes the block of a query with this end; `text` is its line.
fn put_end<K: Sink>(sink: &mut K, schema: &Schema, number: u32, text: &[u8], end: &End) -> Put
    ensures { Wrote (K.state sink.old) (K.state sink.new)
        (end_block schema.now number text.now end.now) result }
{
    match end {
        End::Answered {
            head,
            table,
            chunks,
        } => {
            let shown = Shown {
                head,
                schema,
                table,
                chunks: *chunks,
            };
            put_table(sink, number, &shown)
        }
        End::Refused(why) => put_refusal(sink, number, why, text),
        End::Cancelled => put_cancelled(sink, number),
        End::Spent => put_spent(sink, number),
    }
}

/// A script whose queries have these ends, over a schema.
#[derive(Drop)]
struct EndBlocks<'a, 't> {
    schema: &'a Schema,
    script: &'a Script<'t>,
    ends: &'a [End],
}

impl<'a, 't> Blocks for EndBlocks<'a, 't> {
    ghost use Rattle.std.specs.Prelude.{◌≡◌, length};
    ghost use Rattle.session_script.specs.Scripts.{query_count};
    ghost use Rattle.query_ends.specs.EndTexts.{end_blocks};

    ghost blocks = { λ t. end_blocks t.schema.now t.script.now t.ends.now };

    ghost fits = { λ t. length t.ends.now ≡ query_count t.script.now.steps };

    fn put_block<K: Sink>(&self, sink: &mut K, place: u32) -> Put {
        let _ = self.script.queries();
        let ends = self.ends;
        let number = place + 1;
        put_end(
            sink,
            self.schema,
            number,
            self.script.text_of(number),
            &ends[place as usize],
        )
    }
}

/// Writes the blocks of a script whose queries have these ends, over a schema. Does not allocate.
pub fn put_ends<K: Sink>(sink: &mut K, schema: &Schema, script: &Script<'_>, ends: &[End]) -> Put
    requires each { length ends.now ≡ query_count script.now.steps }
    ensures { Wrote (K.state sink.old) (K.state sink.new)
        (joined (end_blocks schema.now script.now ends.now)) result }
{
    let blocks = EndBlocks {
        schema,
        script,
        ends,
    };
    put_blocks(sink, &blocks, script.queries())
}
