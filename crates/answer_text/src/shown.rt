//! The block of a query that is answered.
ghost use Rattle.std.specs.Prelude.{◌≡◌, ◌∷◌, ◌++◌, codes, map};
ghost use Rattle.sky_io.specs.Sinks.{Wrote};
ghost use Rattle.sql_rules.specs.Printed.{heading};
ghost use Rattle.sql_rules.specs.PrintedExprs.{behind_each};
ghost use Rattle.transcript_rules.specs.Blocks.{number_line};
ghost use Rattle.transcript_rules.specs.RefusalLines.{line};
ghost use Rattle.transcript_rules.specs.Tables.{by_commas, headings, table_lines};

use crate::values::put_answer;
use column_text::columns::put_star;
use column_text::pieces::put_number_line;
use partial_merge::Table;
use sky_io::{Put, Sink};
use sky_row::Schema;
use sql_print::put_heading;
use sql_tree::{Item, ItemList, Query, Selection};

/// What the block of an answered query shows: its tree, the columns, its rows, and how many chunks its plan has.
#[derive(Drop)]
pub struct Shown<'a> {
    pub head: &'a Query,
    pub schema: &'a Schema,
    pub table: &'a Table,
    pub chunks: u32,
}

/// Writes the block of query `number`, which is answered. Does not allocate.
pub fn put_table<K: Sink>(sink: &mut K, number: u32, what: &Shown<'_>) -> Put
    ensures { Wrote (K.state sink.old) (K.state sink.new)
        (number_line number
        ++ table_lines (headings what.now.schema.now what.now.head.now) what.now.table.now
        what.now.chunks) result }
{
    match put_number_line(sink, number) {
        Put::Failed => Put::Failed,
        Put::Done => put_table_lines(sink, what.head, what.schema, what.table, what.chunks),
    }
}

// Writes the lines of an answer.
fn put_table_lines<K: Sink>(
    sink: &mut K,
    head: &Query,
    schema: &Schema,
    table: &Table,
    chunks: u32,
) -> Put
    ensures { Wrote (K.state sink.old) (K.state sink.new)
        (table_lines (headings schema.now head.now) table.now chunks) result }
{
    match put_heading_line(sink, head, schema) {
        Put::Failed => Put::Failed,
        Put::Done => put_answer(sink, table, chunks),
    }
}

// Writes the line of the headings.
fn put_heading_line<K: Sink>(sink: &mut K, head: &Query, schema: &Schema) -> Put
    ensures { Wrote (K.state sink.old) (K.state sink.new)
        (line (by_commas (headings schema.now head.now))) result }
{
    match put_headings(sink, head, schema) {
        Put::Failed => Put::Failed,
        Put::Done => sink.put(b"\n"),
    }
}

// Writes the headings, with commas between them.
fn put_headings<K: Sink>(sink: &mut K, head: &Query, schema: &Schema) -> Put
    ensures { Wrote (K.state sink.old) (K.state sink.new)
        (by_commas (headings schema.now head.now)) result }
{
    match &head.items {
        Selection::Star { .. } => put_star(sink, schema, &head.first, &head.second),
        Selection::List(list) => put_item_headings(sink, list),
    }
}

// Writes the headings of one item or more.
fn put_item_headings<K: Sink>(sink: &mut K, list: &ItemList) -> Put
    ensures { Wrote (K.state sink.old) (K.state sink.new)
        (by_commas (map heading (list.now.first ∷ list.now.rest))) result }
{
    match put_heading(sink, &list.first) {
        Put::Failed => Put::Failed,
        Put::Done => put_further_headings(sink, list.rest.as_slice()),
    }
}

// Writes the headings after the first.
fn put_further_headings<K: Sink>(sink: &mut K, rest: &[Item]) -> Put
    ensures { Wrote (K.state sink.old) (K.state sink.new)
        (behind_each (codes ",") (map heading rest.now)) result }
{
    for item in rest {
        match put_further_heading(sink, item) {
            Put::Failed => return Put::Failed,
            Put::Done => {}
        }
    }
    Put::Done
}

// Writes a heading, and the comma before it.
fn put_further_heading<K: Sink>(sink: &mut K, item: &Item) -> Put
    ensures { Wrote (K.state sink.old) (K.state sink.new) (codes "," ++ heading item.now) result }
{
    match sink.put(b",") {
        Put::Failed => Put::Failed,
        Put::Done => put_heading(sink, item),
    }
}
