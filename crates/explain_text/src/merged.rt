//! The merge in an explain text. One function writes one rule of the syntax.
ghost use Rattle.std.specs.Prelude.{◌≡◌, ◌++◌, codes};
ghost use Rattle.sky_io.specs.Sinks.{Wrote};
ghost use Rattle.transcript_rules.specs.MergeLines.{merge_line};
ghost use Rattle.explain_text.specs.Explaining.{from_keys, from_merged, from_order};

use crate::merge_order::{put_group_by, put_order};
use crate::merged_items::{keys_by, put_merged_items};
use answer_rules::MergePlan;
use sky_io::{Put, Sink};
use sql_print::put_limit;

/// Writes the line of the merge.
pub(crate) fn put_merge_line<K: Sink>(sink: &mut K, merge: &MergePlan) -> Put
    ensures { Wrote (K.state sink.old) (K.state sink.new) (merge_line merge.now) result }
{
    match put_merge(sink, merge) {
        Put::Failed => Put::Failed,
        Put::Done => sink.put(b"\n"),
    }
}

// Writes the line without its end.
fn put_merge<K: Sink>(sink: &mut K, merge: &MergePlan) -> Put
    ensures { Wrote (K.state sink.old) (K.state sink.new)
        (codes "merge: SELECT " ++ from_merged merge.now) result }
{
    match sink.put(b"merge: SELECT ") {
        Put::Failed => Put::Failed,
        Put::Done => put_from_merged(sink, merge),
    }
}

// Writes the rest of the line from the merged items on.
fn put_from_merged<K: Sink>(sink: &mut K, merge: &MergePlan) -> Put
    ensures { Wrote (K.state sink.old) (K.state sink.new) (from_merged merge.now) result }
{
    match put_merged_items(sink, keys_by(&merge.shape), merge.items.as_slice()) {
        Put::Failed => Put::Failed,
        Put::Done => put_from_pieces(sink, merge),
    }
}

// Writes the rest of the line from the pieces on.
fn put_from_pieces<K: Sink>(sink: &mut K, merge: &MergePlan) -> Put
    ensures { Wrote (K.state sink.old) (K.state sink.new)
        (codes " FROM pieces" ++ from_keys merge.now) result }
{
    match sink.put(b" FROM pieces") {
        Put::Failed => Put::Failed,
        Put::Done => put_from_keys(sink, merge),
    }
}

// Writes the rest of the line after the pieces.
fn put_from_keys<K: Sink>(sink: &mut K, merge: &MergePlan) -> Put
    ensures { Wrote (K.state sink.old) (K.state sink.new) (from_keys merge.now) result }
{
    match put_group_by(sink, merge) {
        Put::Failed => Put::Failed,
        Put::Done => put_from_order(sink, merge),
    }
}

// Writes the rest of the line from the order on.
fn put_from_order<K: Sink>(sink: &mut K, merge: &MergePlan) -> Put
    ensures { Wrote (K.state sink.old) (K.state sink.new) (from_order merge.now) result }
{
    match put_order(sink, merge) {
        Put::Failed => Put::Failed,
        Put::Done => put_limit(sink, &merge.limit),
    }
}
