//! Prints whole queries. One function writes one rule of the printed syntax.
ghost use Rattle.std.specs.Prelude.{◌≡◌, ◌∷◌, ◌++◌, [], codes, map, Some};
ghost use Rattle.sky_io.specs.Sinks.{Wrote};
ghost use Rattle.sql_rules.specs.Printed.{print_alias, print_group, print_limit, print_order, print_second};
ghost use Rattle.sql_rules.specs.Printed.{print_table, print_where, printed};
ghost use Rattle.sql_rules.specs.PrintedExprs.{behind_each, print_col, text_if};
ghost use Rattle.sql_print.specs.Clauses.{from_first, from_group, from_items, from_order, from_second, from_where};

use crate::conds::put_cond;
use crate::ints::put_led_size;
use crate::items::put_items;
use crate::parts::{put_col, put_if, put_led_col, put_led_name, put_name};
use sky_io::{Put, Sink};
use sql_tree::{Col, Cond, Int, Name, OrderBy, Query, TableRef};

/// Writes the alias of a table, if it has one.
pub fn put_alias<K: Sink>(sink: &mut K, alias: &Option<Name>) -> Put
    ensures { Wrote (K.state sink.old) (K.state sink.new) (print_alias alias.now) result }
{
    match alias {
        Some(name) => put_led_name(sink, b" ", name),
        None => Put::Done,
    }
}

// Writes a table.
fn put_table<K: Sink>(sink: &mut K, table: &TableRef) -> Put
    ensures { Wrote (K.state sink.old) (K.state sink.new) (print_table table.now) result }
{
    match put_name(sink, &table.name) {
        Put::Failed => Put::Failed,
        Put::Done => put_alias(sink, &table.alias),
    }
}

// Writes a table, and the comma before it.
fn put_further_table<K: Sink>(sink: &mut K, table: &TableRef) -> Put
    ensures { Wrote (K.state sink.old) (K.state sink.new)
        (codes "," ++ print_table table.now) result }
{
    match sink.put(b",") {
        Put::Failed => Put::Failed,
        Put::Done => put_table(sink, table),
    }
}

// Writes the second table, if there is one.
fn put_second<K: Sink>(sink: &mut K, second: &Option<TableRef>) -> Put
    ensures { Wrote (K.state sink.old) (K.state sink.new) (print_second second.now) result }
{
    match second {
        Some(table) => put_further_table(sink, table),
        None => Put::Done,
    }
}

// Writes a condition, and the WHERE before it.
fn put_where_cond<K: Sink>(sink: &mut K, cond: &Cond) -> Put
    ensures { Wrote (K.state sink.old) (K.state sink.new) (print_where (Some cond.now)) result }
{
    match sink.put(b" WHERE ") {
        Put::Failed => Put::Failed,
        Put::Done => put_cond(sink, cond),
    }
}

/// Writes the WHERE clause, if there is one.
pub fn put_where<K: Sink>(sink: &mut K, cond: &Option<Cond>) -> Put
    ensures { Wrote (K.state sink.old) (K.state sink.new) (print_where cond.now) result }
{
    match cond {
        Some(cond) => put_where_cond(sink, cond),
        None => Put::Done,
    }
}

// Writes the columns after the first.
fn put_further_cols<K: Sink>(sink: &mut K, rest: &[Col]) -> Put
    ensures { Wrote (K.state sink.old) (K.state sink.new)
        (behind_each (codes ",") (map print_col rest.now)) result }
{
    for col in rest {
        match put_led_col(sink, b",", col) {
            Put::Failed => return Put::Failed,
            Put::Done => {}
        }
    }
    Put::Done
}

/// Writes columns, with commas between them.
pub fn put_cols<K: Sink>(sink: &mut K, first: &Col, rest: &[Col]) -> Put
    ensures { Wrote (K.state sink.old) (K.state sink.new)
        (print_col first.now ++ behind_each (codes ",") (map print_col rest.now)) result }
{
    match put_col(sink, first) {
        Put::Failed => Put::Failed,
        Put::Done => put_further_cols(sink, rest),
    }
}

// Writes columns to group by, and the GROUP BY before them.
fn put_group_cols<K: Sink>(sink: &mut K, first: &Col, rest: &[Col]) -> Put
    ensures { Wrote (K.state sink.old) (K.state sink.new)
        (print_group (first.now ∷ rest.now)) result }
{
    match sink.put(b" GROUP BY ") {
        Put::Failed => Put::Failed,
        Put::Done => put_cols(sink, first, rest),
    }
}

/// Writes the GROUP BY clause, if there is one.
pub fn put_group<K: Sink>(sink: &mut K, group: &[Col]) -> Put
    ensures { Wrote (K.state sink.old) (K.state sink.new) (print_group group.now) result }
{
    match group {
        [] => Put::Done,
        [first, rest @ ..] => put_group_cols(sink, first, rest),
    }
}

// Writes the key of an order, and whether it is descending.
fn put_key<K: Sink>(sink: &mut K, order: &OrderBy) -> Put
    ensures { Wrote (K.state sink.old) (K.state sink.new)
        (print_col order.now.key ++ text_if order.now.down (codes " DESC")) result }
{
    match put_col(sink, &order.key) {
        Put::Failed => Put::Failed,
        Put::Done => put_if(sink, order.down, b" DESC"),
    }
}

// Writes the key of an order, and the ORDER BY before it.
fn put_order_key<K: Sink>(sink: &mut K, order: &OrderBy) -> Put
    ensures { Wrote (K.state sink.old) (K.state sink.new) (print_order (Some order.now)) result }
{
    match sink.put(b" ORDER BY ") {
        Put::Failed => Put::Failed,
        Put::Done => put_key(sink, order),
    }
}

// Writes the ORDER BY clause, if there is one.
fn put_order<K: Sink>(sink: &mut K, order: &Option<OrderBy>) -> Put
    ensures { Wrote (K.state sink.old) (K.state sink.new) (print_order order.now) result }
{
    match order {
        Some(order) => put_order_key(sink, order),
        None => Put::Done,
    }
}

/// Writes the LIMIT clause, if there is one.
pub fn put_limit<K: Sink>(sink: &mut K, limit: &Option<Int>) -> Put
    ensures { Wrote (K.state sink.old) (K.state sink.new) (print_limit limit.now) result }
{
    match limit {
        Some(n) => put_led_size(sink, b" LIMIT ", n),
        None => Put::Done,
    }
}

// Writes a query from ORDER BY on.
fn put_from_order<K: Sink>(sink: &mut K, query: &Query) -> Put
    ensures { Wrote (K.state sink.old) (K.state sink.new) (from_order query.now) result }
{
    match put_order(sink, &query.order) {
        Put::Failed => Put::Failed,
        Put::Done => put_limit(sink, &query.limit),
    }
}

// Writes a query from GROUP BY on.
fn put_from_group<K: Sink>(sink: &mut K, query: &Query) -> Put
    ensures { Wrote (K.state sink.old) (K.state sink.new) (from_group query.now) result }
{
    match put_group(sink, query.group.as_slice()) {
        Put::Failed => Put::Failed,
        Put::Done => put_from_order(sink, query),
    }
}

// Writes a query from WHERE on.
fn put_from_where<K: Sink>(sink: &mut K, query: &Query) -> Put
    ensures { Wrote (K.state sink.old) (K.state sink.new) (from_where query.now) result }
{
    match put_where(sink, &query.cond) {
        Put::Failed => Put::Failed,
        Put::Done => put_from_group(sink, query),
    }
}

// Writes a query from the second table on.
fn put_from_second<K: Sink>(sink: &mut K, query: &Query) -> Put
    ensures { Wrote (K.state sink.old) (K.state sink.new) (from_second query.now) result }
{
    match put_second(sink, &query.second) {
        Put::Failed => Put::Failed,
        Put::Done => put_from_where(sink, query),
    }
}

// Writes a query from the first table on.
fn put_from_first<K: Sink>(sink: &mut K, query: &Query) -> Put
    ensures { Wrote (K.state sink.old) (K.state sink.new) (from_first query.now) result }
{
    match put_table(sink, &query.first) {
        Put::Failed => Put::Failed,
        Put::Done => put_from_second(sink, query),
    }
}

// Writes a query from FROM on.
fn put_tables<K: Sink>(sink: &mut K, query: &Query) -> Put
    ensures { Wrote (K.state sink.old) (K.state sink.new) (codes " FROM " ++ from_first query.now)
        result }
{
    match sink.put(b" FROM ") {
        Put::Failed => Put::Failed,
        Put::Done => put_from_first(sink, query),
    }
}

// Writes a query after its SELECT.
fn put_from_items<K: Sink>(sink: &mut K, query: &Query) -> Put
    ensures { Wrote (K.state sink.old) (K.state sink.new) (from_items query.now) result }
{
    match put_items(sink, &query.items) {
        Put::Failed => Put::Failed,
        Put::Done => put_tables(sink, query),
    }
}

/// Writes a query as its one printed text, without ASC and semicolon. Does not allocate.
pub fn put_query<K: Sink>(sink: &mut K, query: &Query) -> Put
    ensures { Wrote (K.state sink.old) (K.state sink.new) (printed query.now) result }
{
    match sink.put(b"SELECT ") {
        Put::Failed => Put::Failed,
        Put::Done => put_from_items(sink, query),
    }
}
