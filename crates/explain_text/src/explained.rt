//! The block of a query that is explained.
ghost use Rattle.std.specs.Prelude.{◌≡◌, ◌++◌, codes};
ghost use Rattle.std.specs.List.{flat_map};
ghost use Rattle.sky_io.specs.Sinks.{Wrote};
ghost use Rattle.transcript_rules.specs.Blocks.{number_line};
ghost use Rattle.transcript_rules.specs.ChunkLines.{chunk_line};
ghost use Rattle.transcript_rules.specs.Explained.{chunks_line};
ghost use Rattle.transcript_rules.specs.MergeLines.{merge_line};
ghost use Rattle.explain_text.specs.Explaining.{spaced_number};

use crate::chunk_query::put_chunk_line;
use crate::merged::put_merge_line;
use answer_rules::Rewritten;
use column_text::pieces::{put_led_count, put_number_line};
use scan_rules::ChunkSet;
use sky_io::{Put, Sink};
use sky_row::Schema;
use sql_tree::Query;

/// What explains a query: its tree, the columns, what it is rewritten into, and the chunks of its plan.
#[derive(Drop)]
pub struct Explained<'a> {
    pub head: &'a Query,
    pub schema: &'a Schema,
    pub query: &'a Rewritten,
    pub chunks: &'a ChunkSet,
}

/// Writes the block that explains query `number`. Does not allocate.
pub fn put_explain<K: Sink>(sink: &mut K, number: u32, what: &Explained<'_>) -> Put
    ensures { Wrote (K.state sink.old) (K.state sink.new)
        (number_line number
        ++ (chunk_line what.now.schema.now what.now.head.now what.now.query.now.chunk
        ++ (merge_line what.now.query.now.merge ++ chunks_line what.now.chunks.now))) result }
{
    match put_number_line(sink, number) {
        Put::Failed => Put::Failed,
        Put::Done => put_plan(sink, what.schema, what.head, what.query, what.chunks),
    }
}

// Writes the three lines of a query.
fn put_plan<K: Sink>(
    sink: &mut K,
    schema: &Schema,
    head: &Query,
    query: &Rewritten,
    chunks: &ChunkSet,
) -> Put
    ensures { Wrote (K.state sink.old) (K.state sink.new)
        (chunk_line schema.now head.now query.now.chunk
        ++ (merge_line query.now.merge ++ chunks_line chunks.now)) result }
{
    match put_chunk_line(sink, schema, head, &query.chunk) {
        Put::Failed => Put::Failed,
        Put::Done => put_merge_and_chunks(sink, query, chunks),
    }
}

// Writes the line of the merge, and that of the chunks.
fn put_merge_and_chunks<K: Sink>(sink: &mut K, query: &Rewritten, chunks: &ChunkSet) -> Put
    ensures { Wrote (K.state sink.old) (K.state sink.new)
        (merge_line query.now.merge ++ chunks_line chunks.now) result }
{
    match put_merge_line(sink, &query.merge) {
        Put::Failed => Put::Failed,
        Put::Done => put_chunks_line(sink, chunks),
    }
}

// Writes the line of the chunks.
fn put_chunks_line<K: Sink>(sink: &mut K, chunks: &ChunkSet) -> Put
    ensures { Wrote (K.state sink.old) (K.state sink.new) (chunks_line chunks.now) result }
{
    match put_chunks(sink, chunks) {
        Put::Failed => Put::Failed,
        Put::Done => sink.put(b"\n"),
    }
}

// Writes the line without its end.
fn put_chunks<K: Sink>(sink: &mut K, chunks: &ChunkSet) -> Put
    ensures { Wrote (K.state sink.old) (K.state sink.new)
        (codes "chunks:" ++ flat_map spaced_number chunks.now) result }
{
    match sink.put(b"chunks:") {
        Put::Failed => Put::Failed,
        Put::Done => put_each_chunk(sink, chunks.as_slice()),
    }
}

// Writes the chunks, each after a space.
fn put_each_chunk<K: Sink>(sink: &mut K, chunks: &[u32]) -> Put
    ensures { Wrote (K.state sink.old) (K.state sink.new)
        (flat_map spaced_number chunks.now) result }
{
    for chunk in chunks {
        match put_spaced(sink, chunk) {
            Put::Failed => return Put::Failed,
            Put::Done => {}
        }
    }
    Put::Done
}

// Writes a chunk after a space.
fn put_spaced<K: Sink>(sink: &mut K, chunk: &u32) -> Put
    ensures { Wrote (K.state sink.old) (K.state sink.new) (spaced_number chunk.now) result }
{
    put_led_count(sink, b" ", u64::from(*chunk))
}
