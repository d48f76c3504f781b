//! The lines that report the fault of a text.
ghost use Rattle.std.specs.Prelude.{◌≡◌, ◌++◌, codes};
ghost use Rattle.std.specs.Fmt.{signed_decimal};
ghost use Rattle.sky_io.specs.Sinks.{Wrote};
ghost use Rattle.top_call.specs.FaultLines.{journal_line, load_line, numbered, place, row_line, sky_line, table_line, valued};

use scan_history::HistoryFault;
use sky_io::{Put, Sink};
use sky_rules::SkyFault;
use sky_text::{put_count, put_int};
use table_rules::LoadFault;

/// Writes the line of a sky text's fault. Does not allocate.
pub fn put_sky_fault<K: Sink>(sink: &mut K, fault: &SkyFault) -> Put
    ensures { Wrote (K.state sink.old) (K.state sink.new) (sky_line fault.now) result }
{
    match fault {
        SkyFault::Syntax { line } => put_numbered(sink, b"sky line ", *line, b": syntax\n"),
        SkyFault::Overlap { line } => put_numbered(sink, b"sky line ", *line, b": overlap\n"),
        SkyFault::Order { line } => put_numbered(sink, b"sky line ", *line, b": order\n"),
        SkyFault::Count { line } => put_numbered(sink, b"sky line ", *line, b": count\n"),
        SkyFault::TooMany { line } => put_numbered(sink, b"sky line ", *line, b": too many\n"),
    }
}

/// Writes the line of the fault of a table's text, by the word for the table. Does not allocate.
pub fn put_table_fault<K: Sink>(sink: &mut K, table: &[u8], fault: &LoadFault) -> Put
    ensures { Wrote (K.state sink.old) (K.state sink.new) (table_line table.now fault.now) result }
{
    match sink.put(table) {
        Put::Failed => Put::Failed,
        Put::Done => put_load_fault(sink, fault),
    }
}

// Writes the line of the fault of a table's text, after the word for the table.
fn put_load_fault<K: Sink>(sink: &mut K, fault: &LoadFault) -> Put
    ensures { Wrote (K.state sink.old) (K.state sink.new) (load_line fault.now) result }
{
    match fault {
        LoadFault::Header { field } => put_numbered(sink, b" header: field ", *field, b"\n"),
        LoadFault::FieldCount { row, count } => put_in_row(sink, *row, b": ", *count, b" fields\n"),
        LoadFault::Number { row, field } => put_in_row(
            sink,
            *row,
            b": field ",
            *field,
            b" is not a number\n",
        ),
        LoadFault::Range { row, field, value } => put_range(sink, *row, *field, value),
        LoadFault::Length { row } => put_numbered(sink, b" row ", *row, b": length\n"),
        LoadFault::Repeated { row, id } => put_repeated(sink, *row, id),
        LoadFault::TooManyRows => sink.put(b": too many rows\n"),
    }
}

/// Writes the line of a journal's fault. Does not allocate.
pub fn put_journal_fault<K: Sink>(sink: &mut K, fault: &HistoryFault) -> Put
    ensures { Wrote (K.state sink.old) (K.state sink.new) (journal_line fault.now) result }
{
    match fault {
        HistoryFault::Syntax { line } => put_numbered(sink, b"journal line ", *line, b": syntax\n"),
        HistoryFault::NotAStep { line } => {
            put_numbered(sink, b"journal line ", *line, b": not a step\n")
        }
    }
}

// Writes a thing with its number.
pub(crate) fn put_place<K: Sink>(sink: &mut K, thing: &[u8], n: u32) -> Put
    ensures { Wrote (K.state sink.old) (K.state sink.new) (place thing.now n) result }
{
    match sink.put(thing) {
        Put::Failed => Put::Failed,
        Put::Done => put_count(sink, u64::from(n)),
    }
}

// Writes a thing with its number, and the text after it.
pub(crate) fn put_numbered<K: Sink>(sink: &mut K, thing: &[u8], n: u32, behind: &[u8]) -> Put
    ensures { Wrote (K.state sink.old) (K.state sink.new) (numbered thing.now n behind.now) result }
{
    match put_place(sink, thing, n) {
        Put::Failed => Put::Failed,
        Put::Done => sink.put(behind),
    }
}

// Writes the row, a thing in it with its number, and the text after it.
fn put_in_row<K: Sink>(sink: &mut K, row: u32, thing: &[u8], n: u32, behind: &[u8]) -> Put
    ensures { Wrote (K.state sink.old) (K.state sink.new)
        (row_line row (numbered thing.now n behind.now)) result }
{
    match put_place(sink, b" row ", row) {
        Put::Failed => Put::Failed,
        Put::Done => put_numbered(sink, thing, n, behind),
    }
}

// Writes a value, and ends the line.
fn put_last<K: Sink>(sink: &mut K, value: &i128) -> Put
    ensures { Wrote (K.state sink.old) (K.state sink.new)
        (signed_decimal value.now ++ codes "\n") result }
{
    match put_int(sink, *value) {
        Put::Failed => Put::Failed,
        Put::Done => sink.put(b"\n"),
    }
}

// Writes the description of a value, and the value, and ends the line.
fn put_valued<K: Sink>(sink: &mut K, before: &[u8], value: &i128) -> Put
    ensures { Wrote (K.state sink.old) (K.state sink.new) (valued before.now value.now) result }
{
    match sink.put(before) {
        Put::Failed => Put::Failed,
        Put::Done => put_last(sink, value),
    }
}

// Writes a field, and its value that is out of range.
fn put_field_value<K: Sink>(sink: &mut K, field: u32, value: &i128) -> Put
    ensures { Wrote (K.state sink.old) (K.state sink.new)
        (numbered (codes ": field ") field (valued (codes " out of range: ") value.now)) result }
{
    match put_place(sink, b": field ", field) {
        Put::Failed => Put::Failed,
        Put::Done => put_valued(sink, b" out of range: ", value),
    }
}

// Writes the row and the field of a value that is out of range.
fn put_range<K: Sink>(sink: &mut K, row: u32, field: u32, value: &i128) -> Put
    ensures { Wrote (K.state sink.old) (K.state sink.new)
        (load_line (LoadFault.Range row field value.now)) result }
{
    match put_place(sink, b" row ", row) {
        Put::Failed => Put::Failed,
        Put::Done => put_field_value(sink, field, value),
    }
}

// Writes the row whose id an earlier row has.
fn put_repeated<K: Sink>(sink: &mut K, row: u32, id: &i64) -> Put
    ensures { Wrote (K.state sink.old) (K.state sink.new)
        (row_line row (valued (codes ": repeated id ") id.now)) result }
{
    match put_place(sink, b" row ", row) {
        Put::Failed => Put::Failed,
        Put::Done => put_valued(sink, b": repeated id ", &i128::from(*id)),
    }
}
