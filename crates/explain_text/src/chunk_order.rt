//! The order and the LIMIT of a chunk query in an explain text. One function writes one rule of the syntax.
ghost use Rattle.std.specs.Prelude.{◌≡◌, ◌++◌, ◌+◌, ◌≤◌, ◌^◌, Some, codes, length};
ghost use Rattle.sky_io.specs.Sinks.{Wrote};
ghost use Rattle.sql_rules.specs.Printed.{print_limit};
ghost use Rattle.sql_rules.specs.PrintedExprs.{behind_each, text_if};
ghost use Rattle.transcript_rules.specs.ChunkLines.{chunk_limit, chunk_order_names};
ghost use Rattle.transcript_rules.specs.ColumnNames.{clause, column_name, id_count, id_names};

use answer_rules::{ChunkOrder, ChunkQuery};
use column_text::column_places::{id_count, put_column_name, put_places, put_places_clause};
use sky_io::{Put, Sink};
use sql_bound::Int;
use sql_print::{put_if, put_led_size};

/// Writes the order and the LIMIT, if there is a LIMIT.
pub(crate) fn put_chunk_limit<K: Sink>(sink: &mut K, chunk: &ChunkQuery) -> Put
    ensures { Wrote (K.state sink.old) (K.state sink.new) (chunk_limit chunk.now chunk.now.limit)
        result }
{
    match &chunk.limit {
        Some(n) => put_limited(sink, chunk, n),
        None => Put::Done,
    }
}

// Writes the order, and the LIMIT after it.
fn put_limited<K: Sink>(sink: &mut K, chunk: &ChunkQuery, n: &Int) -> Put
    ensures { Wrote (K.state sink.old) (K.state sink.new)
        (clause (codes " ORDER BY ") (chunk_order_names chunk.now) ++ print_limit (Some n.now)) result }
{
    match put_order(sink, chunk) {
        Put::Failed => Put::Failed,
        Put::Done => put_led_size(sink, b" LIMIT ", n),
    }
}

// Returns the number of items of the chunk query.
fn item_count(chunk: &ChunkQuery) -> u64
    ensures count { result ≡ length chunk.now.items }
    ensures few { result ≤ 2 ^ 63 }
{
    chunk.items.as_slice().len() as u64
}

// Returns the position after the ids, which is that of the order key.
fn id_end(chunk: &ChunkQuery) -> u64
    ensures { result ≡ length chunk.now.items + id_count chunk.now.shape }
{
    item_count(chunk) + id_count(&chunk.shape)
}

// Writes ORDER BY: the key if there is one, and then the ids.
fn put_order<K: Sink>(sink: &mut K, chunk: &ChunkQuery) -> Put
    ensures { Wrote (K.state sink.old) (K.state sink.new)
        (clause (codes " ORDER BY ") (chunk_order_names chunk.now)) result }
{
    match &chunk.order {
        Some(order) => put_ordered(sink, chunk, order),
        None => put_id_clause(sink, chunk),
    }
}

// Writes ORDER BY without a key.
fn put_id_clause<K: Sink>(sink: &mut K, chunk: &ChunkQuery) -> Put
    ensures { Wrote (K.state sink.old) (K.state sink.new)
        (clause (codes " ORDER BY ") (id_names (length chunk.now.items) chunk.now.shape)) result }
{
    put_places_clause(sink, b" ORDER BY ", item_count(chunk), id_end(chunk))
}

// Writes ORDER BY with a key.
fn put_ordered<K: Sink>(sink: &mut K, chunk: &ChunkQuery, order: &ChunkOrder) -> Put
    ensures { Wrote (K.state sink.old) (K.state sink.new)
        (codes " ORDER BY "
        ++ ((column_name (length chunk.now.items + id_count chunk.now.shape)
        ++ text_if order.now.down (codes " DESC"))
        ++ behind_each (codes ",") (id_names (length chunk.now.items) chunk.now.shape))) result }
{
    match sink.put(b" ORDER BY ") {
        Put::Failed => Put::Failed,
        Put::Done => put_key_and_ids(sink, chunk, order),
    }
}

// Writes the key with its direction, and the ids.
fn put_key_and_ids<K: Sink>(sink: &mut K, chunk: &ChunkQuery, order: &ChunkOrder) -> Put
    ensures { Wrote (K.state sink.old) (K.state sink.new)
        ((column_name (length chunk.now.items + id_count chunk.now.shape)
        ++ text_if order.now.down (codes " DESC"))
        ++ behind_each (codes ",") (id_names (length chunk.now.items) chunk.now.shape)) result }
{
    match put_key(sink, chunk, order) {
        Put::Failed => Put::Failed,
        Put::Done => put_ids(sink, chunk),
    }
}

// Writes the key and its direction.
fn put_key<K: Sink>(sink: &mut K, chunk: &ChunkQuery, order: &ChunkOrder) -> Put
    ensures { Wrote (K.state sink.old) (K.state sink.new)
        (column_name (length chunk.now.items + id_count chunk.now.shape)
        ++ text_if order.now.down (codes " DESC")) result }
{
    match put_key_name(sink, chunk) {
        Put::Failed => Put::Failed,
        Put::Done => put_if(sink, order.down, b" DESC"),
    }
}

// Writes the name of the key's column.
fn put_key_name<K: Sink>(sink: &mut K, chunk: &ChunkQuery) -> Put
    ensures { Wrote (K.state sink.old) (K.state sink.new)
        (column_name (length chunk.now.items + id_count chunk.now.shape)) result }
{
    put_column_name(sink, id_end(chunk) as u128)
}

// Writes the ids, each after a comma.
fn put_ids<K: Sink>(sink: &mut K, chunk: &ChunkQuery) -> Put
    ensures { Wrote (K.state sink.old) (K.state sink.new)
        (behind_each (codes ",") (id_names (length chunk.now.items) chunk.now.shape)) result }
{
    put_places(sink, item_count(chunk), id_end(chunk))
}
