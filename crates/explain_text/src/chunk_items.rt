//! The items of a chunk query in an explain text. One function writes one rule of the syntax.
ghost use Rattle.std.specs.Prelude.{◌≡◌, ◌∷◌, ◌++◌, Some, codes, map, slice_get};
ghost use Rattle.sky_io.specs.Sinks.{Wrote};
ghost use Rattle.sql_rules.specs.PrintedExprs.{behind_each};
ghost use Rattle.bind_rules.specs.Checks.{alias_place};
ghost use Rattle.bind_rules.specs.Columns.{qualifier};
ghost use Rattle.bind_rules.specs.Mentions.{items_of};
ghost use Rattle.transcript_rules.specs.ChunkLines.{chunk_texts, id_texts, item_texts, key_text_by, order_texts};
ghost use Rattle.transcript_rules.specs.ChunkLines.{row_texts, text_of_item};
ghost use Rattle.transcript_rules.specs.Tables.{by_commas};
ghost use Rattle.explain_text.specs.Explaining.{kind_text};
ghost use Rattle.column_text.specs.Parted.{dotted};

use crate::group_parts::put_group_items;
use bind_checks::{alias_place, qualifier};
use column_text::columns::{put_further_column, put_star};
use sky_io::{Put, Sink};
use sky_row::Schema;
use sql_bound::Shape;
use sql_print::{put_col, put_kind};
use sql_tree::{Col, Item, ItemList, Query, Selection, TableRef};

/// Writes the items of the chunk query of this shape, with commas between them.
pub(crate) fn put_chunk_items<K: Sink>(
    sink: &mut K,
    schema: &Schema,
    head: &Query,
    shape: &Shape,
) -> Put
    ensures { Wrote (K.state sink.old) (K.state sink.new)
        (by_commas (chunk_texts schema.now head.now shape.now)) result }
{
    match shape {
        Shape::Rows => put_row_items(sink, schema, head),
        Shape::Pairs { .. } => put_row_items(sink, schema, head),
        Shape::Groups { .. } => put_group_items(sink, head),
    }
}

// Writes the items, the ids and the order key.
fn put_row_items<K: Sink>(sink: &mut K, schema: &Schema, head: &Query) -> Put
    ensures { Wrote (K.state sink.old) (K.state sink.new)
        (by_commas (row_texts schema.now head.now))
        result }
{
    match put_selected(sink, schema, head) {
        Put::Failed => Put::Failed,
        Put::Done => put_ids_and_key(sink, head),
    }
}

// Writes the items without their aliases.
fn put_selected<K: Sink>(sink: &mut K, schema: &Schema, head: &Query) -> Put
    ensures { Wrote (K.state sink.old) (K.state sink.new)
        (by_commas (item_texts schema.now head.now head.now.items)) result }
{
    match &head.items {
        Selection::Star { .. } => put_star(sink, schema, &head.first, &head.second),
        Selection::List(list) => put_kinds(sink, list),
    }
}

// Writes one item or more.
fn put_kinds<K: Sink>(sink: &mut K, list: &ItemList) -> Put
    ensures { Wrote (K.state sink.old) (K.state sink.new)
        (by_commas (map kind_text (list.now.first ∷ list.now.rest))) result }
{
    match put_kind(sink, &list.first.what) {
        Put::Failed => Put::Failed,
        Put::Done => put_further_kinds(sink, list.rest.as_slice()),
    }
}

// Writes the items after the first.
fn put_further_kinds<K: Sink>(sink: &mut K, rest: &[Item]) -> Put
    ensures { Wrote (K.state sink.old) (K.state sink.new)
        (behind_each (codes ",") (map kind_text rest.now)) result }
{
    for item in rest {
        match put_further_kind(sink, item) {
            Put::Failed => return Put::Failed,
            Put::Done => {}
        }
    }
    Put::Done
}

// Writes an item, and the comma before it.
fn put_further_kind<K: Sink>(sink: &mut K, item: &Item) -> Put
    ensures { Wrote (K.state sink.old) (K.state sink.new) (codes "," ++ kind_text item.now) result }
{
    match sink.put(b",") {
        Put::Failed => Put::Failed,
        Put::Done => put_kind(sink, &item.what),
    }
}

// Writes the ids and the order key, each after a comma.
fn put_ids_and_key<K: Sink>(sink: &mut K, head: &Query) -> Put
    ensures { Wrote (K.state sink.old) (K.state sink.new)
        (behind_each (codes ",") (id_texts head.now.first head.now.second)
        ++ behind_each (codes ",") (order_texts head.now head.now.order)) result }
{
    match put_ids(sink, &head.first, &head.second) {
        Put::Failed => Put::Failed,
        Put::Done => put_order_key(sink, head),
    }
}

// Writes the id, or both ids of a pair.
fn put_ids<K: Sink>(sink: &mut K, first: &TableRef, second: &Option<TableRef>) -> Put
    ensures { Wrote (K.state sink.old) (K.state sink.new)
        (behind_each (codes ",") (id_texts first.now second.now)) result }
{
    match second {
        Some(second) => put_two_ids(sink, first, second),
        None => sink.put(b",objectId"),
    }
}

// Writes the id of a row of a table, and the comma before it.
fn put_further_id<K: Sink>(sink: &mut K, table: &TableRef) -> Put
    ensures { Wrote (K.state sink.old) (K.state sink.new)
        (codes "," ++ dotted (qualifier table.now) (codes ".") (codes "objectId")) result }
{
    put_further_column(sink, qualifier(table), b".", b"objectId")
}

// Writes both ids of a pair.
fn put_two_ids<K: Sink>(sink: &mut K, first: &TableRef, second: &TableRef) -> Put
    ensures { Wrote (K.state sink.old) (K.state sink.new)
        (behind_each (codes ",") (id_texts first.now (Some second.now))) result }
{
    match put_further_id(sink, first) {
        Put::Failed => Put::Failed,
        Put::Done => put_further_id(sink, second),
    }
}

// Writes the order key, if there is one.
fn put_order_key<K: Sink>(sink: &mut K, head: &Query) -> Put
    ensures { Wrote (K.state sink.old) (K.state sink.new)
        (behind_each (codes ",") (order_texts head.now head.now.order)) result }
{
    match &head.order {
        Some(order) => put_further_key(sink, head, &order.key),
        None => Put::Done,
    }
}

// Writes an order key, and the comma before it.
fn put_further_key<K: Sink>(sink: &mut K, head: &Query, key: &Col) -> Put
    ensures { Wrote (K.state sink.old) (K.state sink.new)
        (codes "," ++ key_text_by head.now key.now (alias_place head.now key.now)) result }
{
    match sink.put(b",") {
        Put::Failed => Put::Failed,
        Put::Done => put_key(sink, head, key),
    }
}

// Writes an order key: the item whose alias it is, or a column.
fn put_key<K: Sink>(sink: &mut K, head: &Query, key: &Col) -> Put
    ensures { Wrote (K.state sink.old) (K.state sink.new)
        (key_text_by head.now key.now (alias_place head.now key.now)) result }
{
    match alias_place(head, key) {
        Some(place) => put_item_at(sink, &head.items, place),
        None => put_col(sink, key),
    }
}

// Writes the item at an index.
fn put_item_at<K: Sink>(sink: &mut K, items: &Selection, place: usize) -> Put
    ensures { Wrote (K.state sink.old) (K.state sink.new)
        (text_of_item (slice_get (items_of items.now) place)) result }
{
    match items {
        Selection::Star { .. } => Put::Done,
        Selection::List(list) => put_listed(sink, list, place),
    }
}

// Writes the item at an index of a list of one item or more.
fn put_listed<K: Sink>(sink: &mut K, list: &ItemList, place: usize) -> Put
    ensures { Wrote (K.state sink.old) (K.state sink.new)
        (text_of_item (slice_get (list.now.first ∷ list.now.rest) place)) result }
{
    if place == 0 {
        put_kind(sink, &list.first.what)
    } else {
        put_rest_at(sink, list.rest.as_slice(), place - 1)
    }
}

// Writes the item at an index of the items after the first.
fn put_rest_at<K: Sink>(sink: &mut K, rest: &[Item], place: usize) -> Put
    ensures { Wrote (K.state sink.old) (K.state sink.new)
        (text_of_item (slice_get rest.now place)) result }
{
    match rest.get(place) {
        Some(item) => put_kind(sink, &item.what),
        None => Put::Done,
    }
}
