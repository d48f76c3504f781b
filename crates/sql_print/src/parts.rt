//! Prints names, columns and optional words.
ghost use Rattle.std.specs.Prelude.{◌≡◌, ◌++◌, [], codes};
ghost use Rattle.sky_io.specs.Sinks.{Wrote};
ghost use Rattle.sql_rules.specs.PrintedExprs.{print_col, print_qualifier, text_if};

use sky_io::{Put, Sink};
use sql_tree::{Col, Name};

/// Writes the words if `there` is true, and else nothing.
pub fn put_if<K: Sink>(sink: &mut K, there: bool, words: &[u8]) -> Put
    ensures { Wrote (K.state sink.old) (K.state sink.new) (text_if there words.now) result }
{
    if there { sink.put(words) } else { Put::Done }
}

/// Writes a name.
pub(crate) fn put_name<K: Sink>(sink: &mut K, name: &Name) -> Put
    ensures { Wrote (K.state sink.old) (K.state sink.new) name.now.text result }
{
    sink.put(name.text.as_slice())
}

/// Writes words followed by a name.
pub(crate) fn put_led_name<K: Sink>(sink: &mut K, words: &[u8], name: &Name) -> Put
    ensures { Wrote (K.state sink.old) (K.state sink.new) (words.now ++ name.now.text) result }
{
    match sink.put(words) {
        Put::Failed => Put::Failed,
        Put::Done => put_name(sink, name),
    }
}

// Writes a name followed by words.
fn put_name_before<K: Sink>(sink: &mut K, name: &Name, words: &[u8]) -> Put
    ensures { Wrote (K.state sink.old) (K.state sink.new) (name.now.text ++ words.now) result }
{
    match put_name(sink, name) {
        Put::Failed => Put::Failed,
        Put::Done => sink.put(words),
    }
}

// Writes the qualifier of a column, and its dot.
fn put_qualifier<K: Sink>(sink: &mut K, table: &Option<Name>) -> Put
    ensures { Wrote (K.state sink.old) (K.state sink.new) (print_qualifier table.now) result }
{
    match table {
        Some(name) => put_name_before(sink, name, b"."),
        None => Put::Done,
    }
}

/// Writes a column, with its qualifier if it has one.
pub fn put_col<K: Sink>(sink: &mut K, col: &Col) -> Put
    ensures { Wrote (K.state sink.old) (K.state sink.new) (print_col col.now) result }
{
    match put_qualifier(sink, &col.table) {
        Put::Failed => Put::Failed,
        Put::Done => put_name(sink, &col.name),
    }
}

/// Writes words followed by a column.
pub(crate) fn put_led_col<K: Sink>(sink: &mut K, words: &[u8], col: &Col) -> Put
    ensures { Wrote (K.state sink.old) (K.state sink.new) (words.now ++ print_col col.now) result }
{
    match sink.put(words) {
        Put::Failed => Put::Failed,
        Put::Done => put_col(sink, col),
    }
}
