//! The columns of a chunk query by their positions: c1, c2 and so on. One function writes one rule of the syntax.
ghost use Rattle.std.specs.Prelude.{◌≡◌, ◌++◌, ◌+◌, ◌-◌, ◌<◌, ◌≤◌, ◌^◌, codes};
ghost use Rattle.sky_io.specs.Sinks.{Wrote};
ghost use Rattle.sql_rules.specs.PrintedExprs.{behind_each};
ghost use Rattle.transcript_rules.specs.ColumnNames.{clause, column_name, id_count, place_names};

use sky_io::{Put, Sink};
use sky_text::put_natural;
use sql_bound::Shape;

/// Writes the name of the column at a position, from 0. The positions in a merge may be any number of a machine word,
/// and the number of keys is added to that of an item.
pub fn put_column_name<K: Sink>(sink: &mut K, place: u128) -> Put
    requires { place < 2 ^ 128 - 1 }
    ensures { Wrote (K.state sink.old) (K.state sink.new) (column_name place) result }
{
    match sink.put(b"c") {
        Put::Failed => Put::Failed,
        Put::Done => put_natural(sink, place + 1),
    }
}

/// Writes the names of the columns from one position to before another, each after a comma.
pub fn put_places<K: Sink>(sink: &mut K, from: u64, to: u64) -> Put
    requires { from ≤ to }
    ensures { Wrote (K.state sink.old) (K.state sink.new)
        (behind_each (codes ",") (place_names from (to - from))) result }
{
    for place in from..to {
        match put_further_place(sink, place) {
            Put::Failed => return Put::Failed,
            Put::Done => {}
        }
    }
    Put::Done
}

// Writes the name of a column, and the comma before it.
fn put_further_place<K: Sink>(sink: &mut K, place: u64) -> Put
    ensures { Wrote (K.state sink.old) (K.state sink.new) (codes "," ++ column_name place) result }
{
    match sink.put(b",") {
        Put::Failed => Put::Failed,
        Put::Done => put_column_name(sink, place as u128),
    }
}

/// Writes words, and after them the names of the columns from one position to before another, if there are any.
pub fn put_places_clause<K: Sink>(sink: &mut K, words: &[u8], from: u64, to: u64) -> Put
    requires { from ≤ to }
    ensures { Wrote (K.state sink.old) (K.state sink.new)
        (clause words.now (place_names from (to - from))) result }
{
    if from == to {
        Put::Done
    } else {
        put_led_places(sink, words, from, to)
    }
}

// Writes words, and after them the names of one column or more.
fn put_led_places<K: Sink>(sink: &mut K, words: &[u8], from: u64, to: u64) -> Put
    requires { from < to }
    ensures { Wrote (K.state sink.old) (K.state sink.new)
        (words.now
        ++ (column_name from ++ behind_each (codes ",") (place_names (from + 1) (to - (from + 1)))))
        result }
{
    match sink.put(words) {
        Put::Failed => Put::Failed,
        Put::Done => put_some_places(sink, from, to),
    }
}

// Writes the names of one column or more.
fn put_some_places<K: Sink>(sink: &mut K, from: u64, to: u64) -> Put
    requires { from < to }
    ensures { Wrote (K.state sink.old) (K.state sink.new)
        (column_name from ++ behind_each (codes ",") (place_names (from + 1) (to - (from + 1))))
        result }
{
    match put_column_name(sink, from as u128) {
        Put::Failed => Put::Failed,
        Put::Done => put_places(sink, from + 1, to),
    }
}

/// Returns how many ids follow the items of a chunk query.
pub fn id_count(shape: &Shape) -> u64
    ensures count { result ≡ id_count shape.now }
    ensures few { result ≤ 2 }
{
    match shape {
        Shape::Rows => 1,
        Shape::Pairs { .. } => 2,
        Shape::Groups { .. } => 0,
    }
}
