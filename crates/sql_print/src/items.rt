//! Prints the select list. One function writes one rule of the printed syntax.
ghost use Rattle.std.specs.Prelude.{◌≡◌, ◌++◌, [], codes, map};
ghost use Rattle.sky_io.specs.Sinks.{Wrote};
ghost use Rattle.sql_rules.specs.Printed.{heading, print_as, print_item, print_items, print_kind};
ghost use Rattle.sql_rules.specs.PrintedExprs.{behind_each, in_brackets, print_expr};

use crate::exprs::{put_bracket, put_expr};
use crate::parts::{put_led_name, put_name};
use sky_io::{Put, Sink};
use sql_tree::{Expr, Item, ItemKind, ItemList, Name, Selection};

/// Writes the name of a function, and its expression in brackets.
pub fn put_call<K: Sink>(sink: &mut K, word: &[u8], e: &Expr) -> Put
    ensures { Wrote (K.state sink.old) (K.state sink.new)
        (word.now ++ in_brackets (print_expr e.now)) result }
{
    match sink.put(word) {
        Put::Failed => Put::Failed,
        Put::Done => put_bracket(sink, e),
    }
}

/// Writes an item without its alias.
pub fn put_kind<K: Sink>(sink: &mut K, what: &ItemKind) -> Put
    ensures { Wrote (K.state sink.old) (K.state sink.new) (print_kind what.now) result }
{
    match what {
        ItemKind::Plain(e) => put_expr(sink, e),
        ItemKind::Count => sink.put(b"COUNT(*)"),
        ItemKind::CountOf(e) => put_call(sink, b"COUNT", e),
        ItemKind::Sum(e) => put_call(sink, b"SUM", e),
        ItemKind::Min(e) => put_call(sink, b"MIN", e),
        ItemKind::Max(e) => put_call(sink, b"MAX", e),
        ItemKind::Avg(e) => put_call(sink, b"AVG", e),
    }
}

/// Writes the heading of an item: its alias, or else the item itself.
pub fn put_heading<K: Sink>(sink: &mut K, item: &Item) -> Put
    ensures { Wrote (K.state sink.old) (K.state sink.new) (heading item.now) result }
{
    match &item.alias {
        Some(alias) => put_name(sink, alias),
        None => put_kind(sink, &item.what),
    }
}

// Writes the alias of an item, if it has one.
fn put_as<K: Sink>(sink: &mut K, alias: &Option<Name>) -> Put
    ensures { Wrote (K.state sink.old) (K.state sink.new) (print_as alias.now) result }
{
    match alias {
        Some(name) => put_led_name(sink, b" AS ", name),
        None => Put::Done,
    }
}

// Writes an item.
fn put_item<K: Sink>(sink: &mut K, item: &Item) -> Put
    ensures { Wrote (K.state sink.old) (K.state sink.new) (print_item item.now) result }
{
    match put_kind(sink, &item.what) {
        Put::Failed => Put::Failed,
        Put::Done => put_as(sink, &item.alias),
    }
}

// Writes a later item, and the comma before it.
fn put_further_item<K: Sink>(sink: &mut K, item: &Item) -> Put
    ensures { Wrote (K.state sink.old) (K.state sink.new)
        (codes "," ++ print_item item.now) result }
{
    match sink.put(b",") {
        Put::Failed => Put::Failed,
        Put::Done => put_item(sink, item),
    }
}

// Writes the items after the first.
fn put_further_items<K: Sink>(sink: &mut K, rest: &[Item]) -> Put
    ensures { Wrote (K.state sink.old) (K.state sink.new)
        (behind_each (codes ",") (map print_item rest.now)) result }
{
    for item in rest {
        match put_further_item(sink, item) {
            Put::Failed => return Put::Failed,
            Put::Done => {}
        }
    }
    Put::Done
}

// Writes a non-empty list of items.
fn put_item_list<K: Sink>(sink: &mut K, items: &ItemList) -> Put
    ensures { Wrote (K.state sink.old) (K.state sink.new)
        (print_item items.now.first ++ behind_each (codes ",") (map print_item items.now.rest))
        result }
{
    match put_item(sink, &items.first) {
        Put::Failed => Put::Failed,
        Put::Done => put_further_items(sink, items.rest.as_slice()),
    }
}

/// Writes a star, or the items.
pub(crate) fn put_items<K: Sink>(sink: &mut K, items: &Selection) -> Put
    ensures { Wrote (K.state sink.old) (K.state sink.new) (print_items items.now) result }
{
    match items {
        Selection::Star { .. } => sink.put(b"*"),
        Selection::List(list) => put_item_list(sink, list),
    }
}
