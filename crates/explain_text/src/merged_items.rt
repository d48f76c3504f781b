//! Merged items in an explain text. One function writes one rule of the syntax.
ghost use Rattle.std.specs.Prelude.{◌≡◌, ◌++◌, ◌+◌, ◌-◌, ◌<◌, ◌^◌, codes, length, map};
ghost use Rattle.sky_io.specs.Sinks.{Wrote};
ghost use Rattle.sql_rules.specs.PrintedExprs.{behind_each, in_brackets};
ghost use Rattle.answer_rules.specs.Finish.{keys_by};
ghost use Rattle.transcript_rules.specs.ColumnNames.{column_name};
ghost use Rattle.transcript_rules.specs.MergeLines.{call, merged_over};
ghost use Rattle.transcript_rules.specs.Tables.{by_commas};

use crate::key_exprs::put_key_expr;
use answer_rules::MergeItem;
use column_text::column_places::put_column_name;
use sky_io::{Put, Sink};
use sql_bound::{BoundCol, Shape};

/// Returns the keys of a grouped query.
pub(crate) fn keys_by(shape: &Shape) -> &[BoundCol]
    ensures { result.now ≡ keys_by shape.now }
{
    match shape {
        Shape::Rows => &[],
        Shape::Pairs { .. } => &[],
        Shape::Groups { keys } => keys.as_slice(),
    }
}

/// Writes the merged items, with commas between them.
pub(crate) fn put_merged_items<K: Sink>(sink: &mut K, keys: &[BoundCol], items: &[MergeItem]) -> Put
    ensures { Wrote (K.state sink.old) (K.state sink.new)
        (by_commas (map (merged_over keys.now) items.now)) result }
{
    match items {
        [] => Put::Done,
        [first, rest @ ..] => put_some_merged(sink, keys, first, rest),
    }
}

// Writes one merged item or more.
fn put_some_merged<K: Sink>(
    sink: &mut K,
    keys: &[BoundCol],
    first: &MergeItem,
    rest: &[MergeItem],
) -> Put
    ensures { Wrote (K.state sink.old) (K.state sink.new)
        (merged_over keys.now first.now
        ++ behind_each (codes ",") (map (merged_over keys.now) rest.now)) result }
{
    match put_merged(sink, keys, first) {
        Put::Failed => Put::Failed,
        Put::Done => put_further_merged(sink, keys, rest),
    }
}

// Writes the merged items after the first.
fn put_further_merged<K: Sink>(sink: &mut K, keys: &[BoundCol], rest: &[MergeItem]) -> Put
    ensures { Wrote (K.state sink.old) (K.state sink.new)
        (behind_each (codes ",") (map (merged_over keys.now) rest.now)) result }
{
    for item in rest {
        match put_comma_merged(sink, keys, item) {
            Put::Failed => return Put::Failed,
            Put::Done => {}
        }
    }
    Put::Done
}

// Writes a merged item, and the comma before it.
fn put_comma_merged<K: Sink>(sink: &mut K, keys: &[BoundCol], item: &MergeItem) -> Put
    ensures { Wrote (K.state sink.old) (K.state sink.new)
        (codes "," ++ merged_over keys.now item.now) result }
{
    match sink.put(b",") {
        Put::Failed => Put::Failed,
        Put::Done => put_merged(sink, keys, item),
    }
}

/// Writes a merged item.
pub(crate) fn put_merged<K: Sink>(sink: &mut K, keys: &[BoundCol], item: &MergeItem) -> Put
    ensures { Wrote (K.state sink.old) (K.state sink.new) (merged_over keys.now item.now) result }
{
    match item {
        MergeItem::Column(n) => put_column_name(sink, *n as u128),
        MergeItem::OfKeys(e) => put_key_expr(sink, keys, e),
        MergeItem::Count(n) => put_call(sink, b"SUM", keys, *n),
        MergeItem::Sum(n) => put_call(sink, b"SUM", keys, *n),
        MergeItem::Min(n) => put_call(sink, b"MIN", keys, *n),
        MergeItem::Max(n) => put_call(sink, b"MAX", keys, *n),
        MergeItem::Avg { sum, count } => put_quotient(sink, keys, *sum, *count),
    }
}

// Writes a word, and in brackets the column of an item of the chunk query, which follows the keys.
fn put_call<K: Sink>(sink: &mut K, word: &[u8], keys: &[BoundCol], n: usize) -> Put
    ensures { Wrote (K.state sink.old) (K.state sink.new)
        (call word.now (length keys.now + n)) result }
{
    match sink.put(word) {
        Put::Failed => Put::Failed,
        Put::Done => put_bracket(sink, keys.len() as u128 + n as u128),
    }
}

// Writes a column in brackets.
fn put_bracket<K: Sink>(sink: &mut K, place: u128) -> Put
    requires { place < 2 ^ 128 - 1 }
    ensures { Wrote (K.state sink.old) (K.state sink.new) (in_brackets (column_name place)) result }
{
    match sink.put(b"(") {
        Put::Failed => Put::Failed,
        Put::Done => put_closed(sink, place),
    }
}

// Writes a column, and the closing bracket.
fn put_closed<K: Sink>(sink: &mut K, place: u128) -> Put
    requires { place < 2 ^ 128 - 1 }
    ensures { Wrote (K.state sink.old) (K.state sink.new) (column_name place ++ codes ")") result }
{
    match put_column_name(sink, place) {
        Put::Failed => Put::Failed,
        Put::Done => sink.put(b")"),
    }
}

// Writes a total divided by a count.
fn put_quotient<K: Sink>(sink: &mut K, keys: &[BoundCol], sum: usize, count: usize) -> Put
    ensures { Wrote (K.state sink.old) (K.state sink.new)
        (call (codes "SUM") (length keys.now + sum)
        ++ (codes "/" ++ call (codes "SUM") (length keys.now + count))) result }
{
    match put_call(sink, b"SUM", keys, sum) {
        Put::Failed => Put::Failed,
        Put::Done => put_divisor(sink, keys, count),
    }
}

// Writes the count that a total is divided by.
fn put_divisor<K: Sink>(sink: &mut K, keys: &[BoundCol], count: usize) -> Put
    ensures { Wrote (K.state sink.old) (K.state sink.new)
        (codes "/" ++ call (codes "SUM") (length keys.now + count)) result }
{
    match sink.put(b"/") {
        Put::Failed => Put::Failed,
        Put::Done => put_call(sink, b"SUM", keys, count),
    }
}
