//! The columns of a star by name. One function writes one rule of the syntax.
ghost use Rattle.std.specs.Prelude.{◌≡◌, ◌++◌, ◌+◌, ◌<◌, ◌≤◌, Some, codes, length, slice_get};
ghost use Rattle.sky_io.specs.Sinks.{Wrote};
ghost use Rattle.table_rules.specs.Names.{column_names};
ghost use Rattle.sql_rules.specs.PrintedExprs.{behind_each};
ghost use Rattle.bind_rules.specs.Columns.{qualifier};
ghost use Rattle.transcript_rules.specs.Tables.{by_commas, star_columns};
ghost use Rattle.column_text.specs.Parted.{columns_from, dotted};
ghost use Rattle.table_rules.specs.declared.limits.TheConstants.{FIRST_COLUMNS};

use bind_checks::qualifier;
use sky_io::{Put, Sink};
use sky_row::Schema;
use sql_tree::TableRef;

// Writes two texts.
fn put_two<K: Sink>(sink: &mut K, first: &[u8], second: &[u8]) -> Put
    ensures { Wrote (K.state sink.old) (K.state sink.new) (first.now ++ second.now) result }
{
    match sink.put(first) {
        Put::Failed => Put::Failed,
        Put::Done => sink.put(second),
    }
}

// Writes a name after its qualifier and a dot, both of which may be empty.
fn put_dotted<K: Sink>(sink: &mut K, side: &[u8], dot: &[u8], name: &[u8]) -> Put
    ensures { Wrote (K.state sink.old) (K.state sink.new)
        (dotted side.now dot.now name.now) result }
{
    match sink.put(side) {
        Put::Failed => Put::Failed,
        Put::Done => put_two(sink, dot, name),
    }
}

/// Writes an extra column, and the comma before it.
pub fn put_further_column<K: Sink>(sink: &mut K, side: &[u8], dot: &[u8], name: &[u8]) -> Put
    ensures { Wrote (K.state sink.old) (K.state sink.new)
        (codes "," ++ dotted side.now dot.now name.now) result }
{
    match sink.put(b",") {
        Put::Failed => Put::Failed,
        Put::Done => put_dotted(sink, side, dot, name),
    }
}

// Writes the columns from a position on, each after a comma.
fn put_columns_from<K: Sink>(
    sink: &mut K,
    schema: &Schema,
    side: &[u8],
    dot: &[u8],
    from: u32,
) -> Put
    requires { from ≤ FIRST_COLUMNS + length schema.now }
    ensures { Wrote (K.state sink.old) (K.state sink.new)
        (behind_each (codes ",") (columns_from side.now dot.now schema.now from)) result }
{
    for col in from..schema.width() {
        match put_further_column(sink, side, dot, schema.name(col)) {
            Put::Failed => return Put::Failed,
            Put::Done => {}
        }
    }
    Put::Done
}

// Writes all columns, with commas between them.
fn put_columns<K: Sink>(sink: &mut K, schema: &Schema, side: &[u8], dot: &[u8]) -> Put
    ensures { Wrote (K.state sink.old) (K.state sink.new)
        (by_commas (columns_from side.now dot.now schema.now 0)) result }
{
    match put_dotted(sink, side, dot, schema.name(0)) {
        Put::Failed => Put::Failed,
        Put::Done => put_columns_from(sink, schema, side, dot, 1),
    }
}

// Writes all columns of a table, qualified.
fn put_qualified<K: Sink>(sink: &mut K, schema: &Schema, table: &TableRef) -> Put
    ensures { Wrote (K.state sink.old) (K.state sink.new)
        (by_commas (columns_from (qualifier table.now) (codes ".") schema.now 0)) result }
{
    put_columns(sink, schema, qualifier(table), b".")
}

// Writes all columns of a table, qualified, each after a comma.
fn put_further_qualified<K: Sink>(sink: &mut K, schema: &Schema, table: &TableRef) -> Put
    ensures { Wrote (K.state sink.old) (K.state sink.new)
        (behind_each (codes ",") (columns_from (qualifier table.now) (codes ".") schema.now 0))
        result }
{
    put_columns_from(sink, schema, qualifier(table), b".", 0)
}

// Writes the columns of both tables of a join.
fn put_both<K: Sink>(sink: &mut K, schema: &Schema, first: &TableRef, second: &TableRef) -> Put
    ensures { Wrote (K.state sink.old) (K.state sink.new)
        (by_commas (star_columns schema.now first.now (Some second.now))) result }
{
    match put_qualified(sink, schema, first) {
        Put::Failed => Put::Failed,
        Put::Done => put_further_qualified(sink, schema, second),
    }
}

/// Writes the columns that a star represents.
pub fn put_star<K: Sink>(
    sink: &mut K,
    schema: &Schema,
    first: &TableRef,
    second: &Option<TableRef>,
) -> Put
    ensures { Wrote (K.state sink.old) (K.state sink.new)
        (by_commas (star_columns schema.now first.now second.now)) result }
{
    match second {
        Some(second) => put_both(sink, schema, first, second),
        None => put_columns(sink, schema, b"", b""),
    }
}
