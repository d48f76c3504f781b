//! What the merge groups and orders by, in an explain text. One function writes one rule of the syntax.
ghost use Rattle.std.specs.Prelude.{◌≡◌, [], ◌++◌, ◌+◌, ◌≤◌, ◌^◌, codes, length, map, slice_get, unwrap_or};
ghost use Rattle.sky_io.specs.Sinks.{Wrote};
ghost use Rattle.sql_rules.specs.PrintedExprs.{behind_each, text_if};
ghost use Rattle.answer_rules.specs.Finish.{keys_by};
ghost use Rattle.transcript_rules.specs.ColumnNames.{clause, id_count, place_names};
ghost use Rattle.transcript_rules.specs.MergeLines.{merged_over, merged_texts, order_key_text};
ghost use Rattle.transcript_rules.specs.MergeLines.{order_key_texts, tie_names};
ghost use Rattle.explain_text.specs.Explaining.{tie_end, tie_start};

use crate::merged_items::{keys_by, put_merged};
use answer_rules::{MergeItem, MergeKey, MergeOrder, MergePlan};
use column_text::column_places::{id_count, put_column_name, put_places, put_places_clause};
use sky_io::{Put, Sink};
use sql_bound::{BoundCol, Shape};
use sql_print::put_if;

/// Writes GROUP BY, if there are keys.
pub(crate) fn put_group_by<K: Sink>(sink: &mut K, merge: &MergePlan) -> Put
    ensures { Wrote (K.state sink.old) (K.state sink.new)
        (clause (codes " GROUP BY ") (place_names 0 (length (keys_by merge.now.shape)))) result }
{
    put_places_clause(sink, b" GROUP BY ", 0, keys_by(&merge.shape).len() as u64)
}

// Returns the number of merged items.
fn item_count(merge: &MergePlan) -> u64
    ensures count { result ≡ length merge.now.items }
    ensures few { result ≤ 2 ^ 63 }
{
    merge.items.as_slice().len() as u64
}

// Returns the position after the ids, which is that of the chunk query's order key.
fn behind_ids(merge: &MergePlan) -> u64
    ensures { result ≡ length merge.now.items + id_count merge.now.shape }
{
    item_count(merge) + id_count(&merge.shape)
}

// Returns the position of the first of the columns that ties are ordered by.
fn tie_start(merge: &MergePlan) -> u64
    ensures { result ≡ tie_start (length merge.now.items) merge.now.shape }
{
    match &merge.shape {
        Shape::Rows => item_count(merge),
        Shape::Pairs { .. } => item_count(merge),
        Shape::Groups { .. } => 0,
    }
}

// Returns the position after the last of the columns that ties are ordered by.
fn tie_end(merge: &MergePlan) -> u64
    ensures { result ≡ tie_end (length merge.now.items) merge.now.shape }
{
    match &merge.shape {
        Shape::Rows => item_count(merge) + 1,
        Shape::Pairs { .. } => item_count(merge) + 2,
        Shape::Groups { keys } => keys.as_slice().len() as u64,
    }
}

/// Writes ORDER BY, if anything is ordered by.
pub(crate) fn put_order<K: Sink>(sink: &mut K, merge: &MergePlan) -> Put
    ensures { Wrote (K.state sink.old) (K.state sink.new)
        (clause (codes " ORDER BY ")
        (order_key_texts merge.now merge.now.order ++ tie_names merge.now merge.now.shape)) result }
{
    match &merge.order {
        Some(order) => put_ordered(sink, merge, order),
        None => put_tie_clause(sink, merge),
    }
}

// Writes ORDER BY without a key.
fn put_tie_clause<K: Sink>(sink: &mut K, merge: &MergePlan) -> Put
    ensures { Wrote (K.state sink.old) (K.state sink.new)
        (clause (codes " ORDER BY ") (tie_names merge.now merge.now.shape)) result }
{
    put_places_clause(sink, b" ORDER BY ", tie_start(merge), tie_end(merge))
}

// Writes ORDER BY with a key.
fn put_ordered<K: Sink>(sink: &mut K, merge: &MergePlan, order: &MergeOrder) -> Put
    ensures { Wrote (K.state sink.old) (K.state sink.new)
        (codes " ORDER BY "
        ++ ((order_key_text merge.now order.now.key ++ text_if order.now.down (codes " DESC"))
        ++ behind_each (codes ",") (tie_names merge.now merge.now.shape))) result }
{
    match sink.put(b" ORDER BY ") {
        Put::Failed => Put::Failed,
        Put::Done => put_key_and_ties(sink, merge, order),
    }
}

// Writes the key with its direction, and the columns that ties are ordered by.
fn put_key_and_ties<K: Sink>(sink: &mut K, merge: &MergePlan, order: &MergeOrder) -> Put
    ensures { Wrote (K.state sink.old) (K.state sink.new)
        ((order_key_text merge.now order.now.key ++ text_if order.now.down (codes " DESC"))
        ++ behind_each (codes ",") (tie_names merge.now merge.now.shape)) result }
{
    match put_key_and_way(sink, merge, order) {
        Put::Failed => Put::Failed,
        Put::Done => put_ties(sink, merge),
    }
}

// Writes the key and its direction.
fn put_key_and_way<K: Sink>(sink: &mut K, merge: &MergePlan, order: &MergeOrder) -> Put
    ensures { Wrote (K.state sink.old) (K.state sink.new)
        (order_key_text merge.now order.now.key ++ text_if order.now.down (codes " DESC")) result }
{
    match put_key(sink, merge, &order.key) {
        Put::Failed => Put::Failed,
        Put::Done => put_if(sink, order.down, b" DESC"),
    }
}

// Writes the columns that ties are ordered by, each after a comma.
fn put_ties<K: Sink>(sink: &mut K, merge: &MergePlan) -> Put
    ensures { Wrote (K.state sink.old) (K.state sink.new)
        (behind_each (codes ",") (tie_names merge.now merge.now.shape)) result }
{
    put_places(sink, tie_start(merge), tie_end(merge))
}

// Writes the key: the column after the ids, a merged item, or the column of a grouped query's key.
fn put_key<K: Sink>(sink: &mut K, merge: &MergePlan, key: &MergeKey) -> Put
    ensures { Wrote (K.state sink.old) (K.state sink.new)
        (order_key_text merge.now key.now) result }
{
    match key {
        MergeKey::ChunkKey => put_column_name(sink, behind_ids(merge) as u128),
        MergeKey::Item(place) => put_merged_at(sink, merge, *place),
        MergeKey::Key(place) => put_column_name(sink, *place as u128),
    }
}

// Writes the merged item at an index.
fn put_merged_at<K: Sink>(sink: &mut K, merge: &MergePlan, place: usize) -> Put
    ensures { Wrote (K.state sink.old) (K.state sink.new)
        (unwrap_or (slice_get (merged_texts merge.now) place) []) result }
{
    put_listed(sink, keys_by(&merge.shape), merge.items.as_slice(), place)
}

// Writes the merged item at an index of these items, over these keys.
fn put_listed<K: Sink>(sink: &mut K, keys: &[BoundCol], items: &[MergeItem], place: usize) -> Put
    ensures { Wrote (K.state sink.old) (K.state sink.new)
        (unwrap_or (slice_get (map (merged_over keys.now) items.now) place) []) result }
{
    match items.get(place) {
        Some(item) => put_merged(sink, keys, item),
        None => Put::Done,
    }
}
