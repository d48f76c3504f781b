//! Prints predicates without conditions inside. One function writes one rule of the printed syntax.
ghost use Rattle.std.specs.Prelude.{◌≡◌, ◌++◌, codes};
ghost use Rattle.std.specs.Fmt.{signed_decimal};
ghost use Rattle.sky_io.specs.Sinks.{Wrote};
ghost use Rattle.sql_rules.specs.PrintedConds.{print_area, print_cmp, print_ints};
ghost use Rattle.sql_rules.specs.PrintedExprs.{in_brackets, print_expr, text_if};
ghost use Rattle.sql_rules.specs.SpellingConds.{chord_op};

use crate::exprs::{put_expr, put_led_expr};
use crate::ints::{put_led_ints, put_led_size};
use crate::parts::{put_if, put_led_name, put_name};
use sky_io::{Put, Sink};
use sql_tree::{AreaKind, Cmp, Expr, Int, IntList, Name};

// The text of a comparison operator.
fn cmp_text(cmp: Cmp) -> &'static [u8]
    ensures { result.now ≡ print_cmp cmp }
{
    match cmp {
        Cmp::Equal => b"=",
        Cmp::Differs => b"<>",
        Cmp::Less => b"<",
        Cmp::AtMost => b"<=",
        Cmp::More => b">",
        Cmp::AtLeast => b">=",
    }
}

// The comparison operator of a chord test.
fn chord_op(strict: bool) -> Cmp
    ensures { result ≡ chord_op strict }
{
    if strict { Cmp::Less } else { Cmp::AtMost }
}

// The name of an area function.
fn area_text(kind: AreaKind) -> &'static [u8]
    ensures { result.now ≡ print_area kind }
{
    match kind {
        AreaKind::Band => b"area_band",
        AreaKind::Cap => b"area_cap",
        AreaKind::Boxed => b"area_box",
    }
}

/// Writes a comparison of two expressions.
pub(crate) fn put_compare<K: Sink>(sink: &mut K, left: &Expr, op: Cmp, right: &Expr) -> Put
    ensures { Wrote (K.state sink.old) (K.state sink.new)
        (print_expr left.now ++ (print_cmp op ++ print_expr right.now)) result }
{
    match put_expr(sink, left) {
        Put::Failed => Put::Failed,
        Put::Done => put_led_expr(sink, cmp_text(op), right),
    }
}

// Writes the lower end of a range, and the upper end.
fn put_ends<K: Sink>(sink: &mut K, low: &Expr, high: &Expr) -> Put
    ensures { Wrote (K.state sink.old) (K.state sink.new)
        (print_expr low.now ++ (codes " AND " ++ print_expr high.now)) result }
{
    match put_expr(sink, low) {
        Put::Failed => Put::Failed,
        Put::Done => put_led_expr(sink, b" AND ", high),
    }
}

// Writes the rest of a BETWEEN predicate, after its value and NOT.
fn put_range<K: Sink>(sink: &mut K, low: &Expr, high: &Expr) -> Put
    ensures { Wrote (K.state sink.old) (K.state sink.new)
        (codes " BETWEEN " ++ (print_expr low.now ++ (codes " AND " ++ print_expr high.now)))
        result }
{
    match sink.put(b" BETWEEN ") {
        Put::Failed => Put::Failed,
        Put::Done => put_ends(sink, low, high),
    }
}

// Writes the rest of a BETWEEN predicate, after its value.
fn put_not_range<K: Sink>(sink: &mut K, not: bool, low: &Expr, high: &Expr) -> Put
    ensures { Wrote (K.state sink.old) (K.state sink.new)
        (text_if not (codes " NOT")
        ++ (codes " BETWEEN " ++ (print_expr low.now ++ (codes " AND " ++ print_expr high.now))))
        result }
{
    match put_if(sink, not, b" NOT") {
        Put::Failed => Put::Failed,
        Put::Done => put_range(sink, low, high),
    }
}

/// Writes that a value is within a range, or not.
pub(crate) fn put_between<K: Sink>(
    sink: &mut K,
    not: bool,
    value: &Expr,
    low: &Expr,
    high: &Expr,
) -> Put
    ensures { Wrote (K.state sink.old) (K.state sink.new)
        (print_expr value.now ++ (text_if not (codes " NOT")
        ++ (codes " BETWEEN " ++ (print_expr low.now ++ (codes " AND " ++ print_expr high.now)))))
        result }
{
    match put_expr(sink, value) {
        Put::Failed => Put::Failed,
        Put::Done => put_not_range(sink, not, low, high),
    }
}

// Writes the rest of an IN predicate, after its value.
fn put_not_in<K: Sink>(sink: &mut K, not: bool, ints: &IntList) -> Put
    ensures { Wrote (K.state sink.old) (K.state sink.new)
        (text_if not (codes " NOT") ++ (codes " IN " ++ print_ints ints.now)) result }
{
    match put_if(sink, not, b" NOT") {
        Put::Failed => Put::Failed,
        Put::Done => put_led_ints(sink, b" IN ", ints),
    }
}

/// Writes that a value is in a list of integers, or not.
pub(crate) fn put_among<K: Sink>(sink: &mut K, not: bool, value: &Expr, ints: &IntList) -> Put
    ensures { Wrote (K.state sink.old) (K.state sink.new)
        (print_expr value.now
        ++ (text_if not (codes " NOT") ++ (codes " IN " ++ print_ints ints.now))) result }
{
    match put_expr(sink, value) {
        Put::Failed => Put::Failed,
        Put::Done => put_not_in(sink, not, ints),
    }
}

// Writes the rest of an IS NULL predicate, after IS.
fn put_null<K: Sink>(sink: &mut K, not: bool) -> Put
    ensures { Wrote (K.state sink.old) (K.state sink.new)
        (text_if not (codes " NOT") ++ codes " NULL") result }
{
    match put_if(sink, not, b" NOT") {
        Put::Failed => Put::Failed,
        Put::Done => sink.put(b" NULL"),
    }
}

// Writes the rest of an IS NULL predicate, after its value.
fn put_is_or_not<K: Sink>(sink: &mut K, not: bool) -> Put
    ensures { Wrote (K.state sink.old) (K.state sink.new)
        (codes " IS" ++ (text_if not (codes " NOT") ++ codes " NULL")) result }
{
    match sink.put(b" IS") {
        Put::Failed => Put::Failed,
        Put::Done => put_null(sink, not),
    }
}

/// Writes that a value is NULL, or not.
pub(crate) fn put_is_null<K: Sink>(sink: &mut K, not: bool, value: &Expr) -> Put
    ensures { Wrote (K.state sink.old) (K.state sink.new)
        (print_expr value.now ++ (codes " IS" ++ (text_if not (codes " NOT") ++ codes " NULL")))
        result }
{
    match put_expr(sink, value) {
        Put::Failed => Put::Failed,
        Put::Done => put_is_or_not(sink, not),
    }
}

/// Writes an area function.
pub(crate) fn put_area<K: Sink>(sink: &mut K, kind: AreaKind, args: &IntList) -> Put
    ensures { Wrote (K.state sink.old) (K.state sink.new) (print_area kind ++ print_ints args.now)
        result }
{
    put_led_ints(sink, area_text(kind), args)
}

// Writes two names, and the comma between them.
fn put_names<K: Sink>(sink: &mut K, left: &Name, right: &Name) -> Put
    ensures { Wrote (K.state sink.old) (K.state sink.new)
        (left.now.text ++ (codes "," ++ right.now.text)) result }
{
    match put_name(sink, left) {
        Put::Failed => Put::Failed,
        Put::Done => put_led_name(sink, b",", right),
    }
}

// Writes two names, and the closing bracket.
fn put_closed_names<K: Sink>(sink: &mut K, left: &Name, right: &Name) -> Put
    ensures { Wrote (K.state sink.old) (K.state sink.new)
        ((left.now.text ++ (codes "," ++ right.now.text)) ++ codes ")") result }
{
    match put_names(sink, left, right) {
        Put::Failed => Put::Failed,
        Put::Done => sink.put(b")"),
    }
}

// Writes two names in brackets.
fn put_pair<K: Sink>(sink: &mut K, left: &Name, right: &Name) -> Put
    ensures { Wrote (K.state sink.old) (K.state sink.new)
        (in_brackets (left.now.text ++ (codes "," ++ right.now.text))) result }
{
    match sink.put(b"(") {
        Put::Failed => Put::Failed,
        Put::Done => put_closed_names(sink, left, right),
    }
}

// Writes the rest of a chord test, after the name of its function.
fn put_bounded_pair<K: Sink>(sink: &mut K, left: &Name, right: &Name, strict: bool, n: &Int) -> Put
    ensures { Wrote (K.state sink.old) (K.state sink.new)
        (in_brackets (left.now.text ++ (codes "," ++ right.now.text))
        ++ (print_cmp (chord_op strict) ++ signed_decimal n.now)) result }
{
    match put_pair(sink, left, right) {
        Put::Failed => Put::Failed,
        Put::Done => put_led_size(sink, cmp_text(chord_op(strict)), n),
    }
}

/// Writes a chord test.
pub(crate) fn put_chord<K: Sink>(
    sink: &mut K,
    left: &Name,
    right: &Name,
    strict: bool,
    n: &Int,
) -> Put
    ensures { Wrote (K.state sink.old) (K.state sink.new)
        (codes "chord2" ++ (in_brackets (left.now.text ++ (codes "," ++ right.now.text))
        ++ (print_cmp (chord_op strict) ++ signed_decimal n.now))) result }
{
    match sink.put(b"chord2") {
        Put::Failed => Put::Failed,
        Put::Done => put_bounded_pair(sink, left, right, strict, n),
    }
}
