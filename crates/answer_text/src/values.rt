//! The lines of an answer after its headings: a line for each row, and the count of rows and chunks. One function
//! writes one rule of the syntax. A row is written value by value if its line cannot be made in one buffer
//! (`row_line`).
ghost use Rattle.std.specs.Prelude.{◌≡◌, ◌++◌, All, codes, length, map};
ghost use Rattle.std.specs.Fmt.{decimal};
ghost use Rattle.std.specs.List.{flat_map};
ghost use Rattle.sky_io.specs.Sinks.{Wrote};
ghost use Rattle.sql_rules.specs.PrintedExprs.{behind_each};
ghost use Rattle.transcript_rules.specs.Tables.{by_commas, count_line, row_line, value_text};
ghost use Rattle.answer_table.specs.Tables.{IsShort};

use crate::row_line::make_line;
use answer_rules::Value;
use answer_table::TableValue;
use column_text::pieces::put_counted;
use line_buffer::LineBuffer;
use partial_merge::Table;
use sky_io::{Put, Sink};
use sky_text::{put_count, put_decimal4, put_int};

// Writes a value: NULL, a whole number, or an average with four decimals.
fn put_value<K: Sink>(sink: &mut K, value: &TableValue) -> Put
    requires { IsShort value.now }
    ensures { Wrote (K.state sink.old) (K.state sink.new) (value_text value.now) result }
{
    match value.get() {
        Value::Null => sink.put(b"NULL"),
        Value::Whole(n) => put_int(sink, n.get()),
        Value::Fixed4(scaled) => put_decimal4(sink, scaled),
    }
}

// Writes a value, and the comma before it.
fn put_further_value<K: Sink>(sink: &mut K, value: &TableValue) -> Put
    requires { IsShort value.now }
    ensures { Wrote (K.state sink.old) (K.state sink.new)
        (codes "," ++ value_text value.now) result }
{
    match sink.put(b",") {
        Put::Failed => Put::Failed,
        Put::Done => put_value(sink, value),
    }
}

// Writes the values after the first.
fn put_further_values<K: Sink>(sink: &mut K, rest: &[TableValue]) -> Put
    requires { All IsShort rest.now }
    ensures { Wrote (K.state sink.old) (K.state sink.new)
        (behind_each (codes ",") (map value_text rest.now)) result }
{
    for value in rest {
        match put_further_value(sink, value) {
            Put::Failed => return Put::Failed,
            Put::Done => {}
        }
    }
    Put::Done
}

// Writes one value or more.
fn put_some_values<K: Sink>(sink: &mut K, first: &TableValue, rest: &[TableValue]) -> Put
    requires first { IsShort first.now }
    requires rest { All IsShort rest.now }
    ensures { Wrote (K.state sink.old) (K.state sink.new)
        (value_text first.now ++ behind_each (codes ",") (map value_text rest.now)) result }
{
    match put_value(sink, first) {
        Put::Failed => Put::Failed,
        Put::Done => put_further_values(sink, rest),
    }
}

// Writes values, with commas between them.
fn put_values<K: Sink>(sink: &mut K, values: &[TableValue]) -> Put
    requires { All IsShort values.now }
    ensures { Wrote (K.state sink.old) (K.state sink.new) (by_commas (map value_text values.now))
        result }
{
    match values {
        [] => Put::Done,
        [first, rest @ ..] => put_some_values(sink, first, rest),
    }
}

// Writes the line of a row, value by value.
fn put_row_values<K: Sink>(sink: &mut K, row: &[TableValue]) -> Put
    requires { All IsShort row.now }
    ensures { Wrote (K.state sink.old) (K.state sink.new) (row_line row.now) result }
{
    match put_values(sink, row) {
        Put::Failed => Put::Failed,
        Put::Done => sink.put(b"\n"),
    }
}

// Writes the line of a row, which is one piece if it can be made in the buffer.
fn put_row<K: Sink>(sink: &mut K, line: &mut LineBuffer, row: &[TableValue]) -> Put
    requires { All IsShort row.now }
    ensures { Wrote (K.state sink.old) (K.state sink.new) (row_line row.now) result }
{
    if make_line(line, row) {
        sink.put(line.as_slice())
    } else {
        put_row_values(sink, row)
    }
}

// Writes the lines of the rows.
fn put_rows<K: Sink>(sink: &mut K, table: &Table) -> Put
    ensures { Wrote (K.state sink.old) (K.state sink.new) (flat_map row_line table.now) result }
{
    let mut line = LineBuffer::new();
    for place in 0..table.len() {
        match put_row(sink, &mut line, table.row(place)) {
            Put::Failed => return Put::Failed,
            Put::Done => {}
        }
    }
    Put::Done
}

// Writes what follows the count of rows.
fn put_chunk_count<K: Sink>(sink: &mut K, chunks: u32) -> Put
    ensures { Wrote (K.state sink.old) (K.state sink.new)
        (codes " rows, " ++ (decimal chunks ++ codes " chunks")) result }
{
    match sink.put(b" rows, ") {
        Put::Failed => Put::Failed,
        Put::Done => put_counted(sink, u64::from(chunks), b" chunks"),
    }
}

// Writes how many rows there are, and how many chunks.
fn put_two_counts<K: Sink>(sink: &mut K, rows: u64, chunks: u32) -> Put
    ensures { Wrote (K.state sink.old) (K.state sink.new)
        (decimal rows ++ (codes " rows, " ++ (decimal chunks ++ codes " chunks"))) result }
{
    match put_count(sink, rows) {
        Put::Failed => Put::Failed,
        Put::Done => put_chunk_count(sink, chunks),
    }
}

// Writes the last line of an answer.
fn put_count_line<K: Sink>(sink: &mut K, rows: u64, chunks: u32) -> Put
    ensures { Wrote (K.state sink.old) (K.state sink.new) (count_line rows chunks) result }
{
    match put_two_counts(sink, rows, chunks) {
        Put::Failed => Put::Failed,
        Put::Done => sink.put(b"\n"),
    }
}

/// Writes the lines of an answer after its headings.
pub(crate) fn put_answer<K: Sink>(sink: &mut K, table: &Table, chunks: u32) -> Put
    ensures { Wrote (K.state sink.old) (K.state sink.new)
        (flat_map row_line table.now ++ count_line (length table.now) chunks) result }
{
    match put_rows(sink, table) {
        Put::Failed => Put::Failed,
        Put::Done => put_count_line(sink, table.len() as u64, chunks),
    }
}
