//! The chunk query in an explain text. One function writes one rule of the syntax.
ghost use Rattle.std.specs.Prelude.{◌≡◌, ◌++◌, codes};
ghost use Rattle.sky_io.specs.Sinks.{Wrote};
ghost use Rattle.sql_rules.specs.Printed.{print_alias, print_group, print_where};
ghost use Rattle.transcript_rules.specs.ChunkLines.{chunk_limit, chunk_line, chunk_tables};
ghost use Rattle.explain_text.specs.Explaining.{from_items, from_tables};

use crate::chunk_items::put_chunk_items;
use crate::chunk_order::put_chunk_limit;
use answer_rules::ChunkQuery;
use sky_io::{Put, Sink};
use sky_row::Schema;
use sql_print::{put_alias, put_group, put_where};
use sql_tree::{Col, Name, Query, TableRef};

/// Writes the line of the chunk query.
pub(crate) fn put_chunk_line<K: Sink>(
    sink: &mut K,
    schema: &Schema,
    head: &Query,
    chunk: &ChunkQuery,
) -> Put
    ensures { Wrote (K.state sink.old) (K.state sink.new) (chunk_line schema.now head.now chunk.now)
        result }
{
    match put_chunk_query(sink, schema, head, chunk) {
        Put::Failed => Put::Failed,
        Put::Done => sink.put(b"\n"),
    }
}

// Writes the line without its end.
fn put_chunk_query<K: Sink>(sink: &mut K, schema: &Schema, head: &Query, chunk: &ChunkQuery) -> Put
    ensures { Wrote (K.state sink.old) (K.state sink.new)
        (codes "chunk: SELECT " ++ from_items schema.now head.now chunk.now) result }
{
    match sink.put(b"chunk: SELECT ") {
        Put::Failed => Put::Failed,
        Put::Done => put_from_items(sink, schema, head, chunk),
    }
}

// Writes the rest of the line from the items on.
fn put_from_items<K: Sink>(sink: &mut K, schema: &Schema, head: &Query, chunk: &ChunkQuery) -> Put
    ensures { Wrote (K.state sink.old) (K.state sink.new) (from_items schema.now head.now chunk.now)
        result }
{
    match put_chunk_items(sink, schema, head, &chunk.shape) {
        Put::Failed => Put::Failed,
        Put::Done => put_from(sink, head, chunk),
    }
}

// Writes the rest of the line from FROM on.
fn put_from<K: Sink>(sink: &mut K, head: &Query, chunk: &ChunkQuery) -> Put
    ensures { Wrote (K.state sink.old) (K.state sink.new)
        (codes " FROM " ++ from_tables head.now chunk.now) result }
{
    match sink.put(b" FROM ") {
        Put::Failed => Put::Failed,
        Put::Done => put_from_tables(sink, head, chunk),
    }
}

// Writes the rest of the line from the tables on.
fn put_from_tables<K: Sink>(sink: &mut K, head: &Query, chunk: &ChunkQuery) -> Put
    ensures { Wrote (K.state sink.old) (K.state sink.new) (from_tables head.now chunk.now) result }
{
    match put_tables(sink, &head.first, &head.second) {
        Put::Failed => Put::Failed,
        Put::Done => put_from_where(sink, head, chunk),
    }
}

// Writes WHERE, if there is one, and the rest of the line.
fn put_from_where<K: Sink>(sink: &mut K, head: &Query, chunk: &ChunkQuery) -> Put
    ensures { Wrote (K.state sink.old) (K.state sink.new)
        (print_where head.now.cond
        ++ (print_group head.now.group ++ chunk_limit chunk.now chunk.now.limit)) result }
{
    match put_where(sink, &head.cond) {
        Put::Failed => Put::Failed,
        Put::Done => put_from_group(sink, head.group.as_slice(), chunk),
    }
}

// Writes GROUP BY, if there is one, and the order and the LIMIT.
fn put_from_group<K: Sink>(sink: &mut K, group: &[Col], chunk: &ChunkQuery) -> Put
    ensures { Wrote (K.state sink.old) (K.state sink.new)
        (print_group group.now ++ chunk_limit chunk.now chunk.now.limit) result }
{
    match put_group(sink, group) {
        Put::Failed => Put::Failed,
        Put::Done => put_chunk_limit(sink, chunk),
    }
}

// Writes the tables: the chunk, or a subchunk and what is near it.
fn put_tables<K: Sink>(sink: &mut K, first: &TableRef, second: &Option<TableRef>) -> Put
    ensures { Wrote (K.state sink.old) (K.state sink.new)
        (chunk_tables first.now second.now) result }
{
    match second {
        Some(second) => put_sub_tables(sink, &first.alias, &second.alias),
        None => put_led_alias(sink, b"Object_c", &first.alias),
    }
}

// Writes a subchunk and what is near it, each with its alias.
fn put_sub_tables<K: Sink>(sink: &mut K, first: &Option<Name>, second: &Option<Name>) -> Put
    ensures { Wrote (K.state sink.old) (K.state sink.new)
        (codes "Object_c_s"
        ++ (print_alias first.now ++ (codes ",Object_c_s_near" ++ print_alias second.now))) result }
{
    match sink.put(b"Object_c_s") {
        Put::Failed => Put::Failed,
        Put::Done => put_two_aliases(sink, first, second),
    }
}

// Writes the alias of the subchunk, and what is near it.
fn put_two_aliases<K: Sink>(sink: &mut K, first: &Option<Name>, second: &Option<Name>) -> Put
    ensures { Wrote (K.state sink.old) (K.state sink.new)
        (print_alias first.now ++ (codes ",Object_c_s_near" ++ print_alias second.now)) result }
{
    match put_alias(sink, first) {
        Put::Failed => Put::Failed,
        Put::Done => put_led_alias(sink, b",Object_c_s_near", second),
    }
}

// Writes words, and an alias after them.
fn put_led_alias<K: Sink>(sink: &mut K, words: &[u8], alias: &Option<Name>) -> Put
    ensures { Wrote (K.state sink.old) (K.state sink.new)
        (words.now ++ print_alias alias.now) result }
{
    match sink.put(words) {
        Put::Failed => Put::Failed,
        Put::Done => put_alias(sink, alias),
    }
}
