//! What a grouped query adds to its chunk query, in an explain text. One function writes one rule of the syntax.
ghost use Rattle.std.specs.Prelude.{◌≡◌, [], ◌∷◌, ◌++◌, ◌||◌, codes, map};
ghost use Rattle.std.specs.List.{flat_map};
ghost use Rattle.sky_io.specs.Sinks.{Wrote};
ghost use Rattle.sql_rules.specs.Printed.{print_kind};
ghost use Rattle.sql_rules.specs.PrintedExprs.{in_brackets, print_col, print_expr, text_if};
ghost use Rattle.bind_rules.specs.Mentions.{items_of};
ghost use Rattle.transcript_rules.specs.ChunkLines.{group_texts, part_texts};
ghost use Rattle.transcript_rules.specs.Tables.{by_commas};
ghost use Rattle.explain_text.specs.Explaining.{parts_of};
ghost use Rattle.column_text.specs.Parted.{has_any, parted};

use sky_io::{Put, Sink};
use sql_print::{put_call, put_cols, put_if, put_kind};
use sql_tree::{Col, Expr, Item, ItemKind, ItemList, Query, Selection};

/// Writes the keys, and what each item adds.
pub(crate) fn put_group_items<K: Sink>(sink: &mut K, head: &Query) -> Put
    ensures { Wrote (K.state sink.old) (K.state sink.new)
        (by_commas (group_texts head.now)) result }
{
    match head.group.as_slice() {
        [] => put_parts(sink, false, &head.items),
        [first, rest @ ..] => put_keys_and_parts(sink, first, rest, &head.items),
    }
}

// Writes one key or more, and what each item adds.
fn put_keys_and_parts<K: Sink>(sink: &mut K, first: &Col, rest: &[Col], items: &Selection) -> Put
    ensures { Wrote (K.state sink.old) (K.state sink.new)
        (by_commas (map print_col (first.now ∷ rest.now) ++ flat_map parts_of (items_of items.now)))
        result }
{
    match put_cols(sink, first, rest) {
        Put::Failed => Put::Failed,
        Put::Done => put_parts(sink, true, items),
    }
}

// Writes what each item adds. `begun` is whether others precede it.
fn put_parts<K: Sink>(sink: &mut K, begun: bool, items: &Selection) -> Put
    ensures { Wrote (K.state sink.old) (K.state sink.new)
        (parted begun (flat_map parts_of (items_of items.now))) result }
{
    match items {
        Selection::Star { .. } => Put::Done,
        Selection::List(list) => put_list_parts(sink, begun, list),
    }
}

// Writes what each item of a list of one item or more adds.
fn put_list_parts<K: Sink>(sink: &mut K, begun: bool, list: &ItemList) -> Put
    ensures { Wrote (K.state sink.old) (K.state sink.new)
        (parted begun (flat_map parts_of (list.now.first ∷ list.now.rest))) result }
{
    match put_part(sink, begun, &list.first.what) {
        Put::Failed => Put::Failed,
        Put::Done => {
            put_further_parts(sink, goes_on(begun, &list.first.what), list.rest.as_slice())
        }
    }
}

// Writes what each of the items after the first adds.
fn put_further_parts<K: Sink>(sink: &mut K, begun: bool, rest: &[Item]) -> Put
    ensures { Wrote (K.state sink.old) (K.state sink.new)
        (parted begun (flat_map parts_of rest.now)) result }
{
    let mut begun = begun;
    for item in rest {
        match put_part(sink, begun, &item.what) {
            Put::Failed => return Put::Failed,
            Put::Done => {}
        }
        begun = goes_on(begun, &item.what);
    }
    Put::Done
}

// Returns whether an item adds anything.
fn gives(what: &ItemKind) -> bool
    ensures { result ≡ has_any (part_texts what.now) }
{
    match what {
        ItemKind::Plain(_) => false,
        ItemKind::Count => true,
        ItemKind::CountOf(_) => true,
        ItemKind::Sum(_) => true,
        ItemKind::Min(_) => true,
        ItemKind::Max(_) => true,
        ItemKind::Avg(_) => true,
    }
}

// Returns whether others precede what follows an item.
fn goes_on(begun: bool, what: &ItemKind) -> bool
    ensures { result ≡ (begun || has_any (part_texts what.now)) }
{
    begun || gives(what)
}

// Writes what an item adds.
fn put_part<K: Sink>(sink: &mut K, begun: bool, what: &ItemKind) -> Put
    ensures { Wrote (K.state sink.old) (K.state sink.new)
        (parted begun (part_texts what.now)) result }
{
    match what {
        ItemKind::Plain(_) => Put::Done,
        ItemKind::Count => put_itself(sink, begun, what),
        ItemKind::CountOf(_) => put_itself(sink, begun, what),
        ItemKind::Sum(_) => put_itself(sink, begun, what),
        ItemKind::Min(_) => put_itself(sink, begun, what),
        ItemKind::Max(_) => put_itself(sink, begun, what),
        ItemKind::Avg(e) => put_average(sink, begun, e),
    }
}

// Writes an aggregate that adds itself, after a comma if others precede it.
fn put_itself<K: Sink>(sink: &mut K, begun: bool, what: &ItemKind) -> Put
    ensures { Wrote (K.state sink.old) (K.state sink.new)
        (parted begun (print_kind what.now ∷ [])) result }
{
    match put_if(sink, begun, b",") {
        Put::Failed => Put::Failed,
        Put::Done => put_kind(sink, what),
    }
}

// Writes what an average adds: a total and a count.
fn put_average<K: Sink>(sink: &mut K, begun: bool, e: &Expr) -> Put
    ensures { Wrote (K.state sink.old) (K.state sink.new)
        (parted begun ((codes "SUM" ++ in_brackets (print_expr e.now))
        ∷ (codes "COUNT" ++ in_brackets (print_expr e.now)) ∷ [])) result }
{
    match put_total(sink, begun, e) {
        Put::Failed => Put::Failed,
        Put::Done => put_further_count(sink, e),
    }
}

// Writes a total, after a comma if others precede it.
fn put_total<K: Sink>(sink: &mut K, begun: bool, e: &Expr) -> Put
    ensures { Wrote (K.state sink.old) (K.state sink.new)
        (text_if begun (codes ",") ++ (codes "SUM" ++ in_brackets (print_expr e.now))) result }
{
    match put_if(sink, begun, b",") {
        Put::Failed => Put::Failed,
        Put::Done => put_call(sink, b"SUM", e),
    }
}

// Writes a count, and the comma before it.
fn put_further_count<K: Sink>(sink: &mut K, e: &Expr) -> Put
    ensures { Wrote (K.state sink.old) (K.state sink.new)
        (codes "," ++ (codes "COUNT" ++ in_brackets (print_expr e.now))) result }
{
    match sink.put(b",") {
        Put::Failed => Put::Failed,
        Put::Done => put_call(sink, b"COUNT", e),
    }
}
