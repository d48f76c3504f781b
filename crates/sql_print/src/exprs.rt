//! Prints expressions. One function writes one rule of the printed syntax.
ghost use Rattle.std.specs.Prelude.{◌≡◌, ◌++◌, [], codes, if◌then◌else◌, map};
ghost use Rattle.sky_io.specs.Sinks.{Wrote};
ghost use Rattle.sql_rules.specs.PrintedExprs.{behind_each, in_brackets, print_atom, print_expr, print_factor};
ghost use Rattle.sql_rules.specs.PrintedExprs.{print_prod, print_signed};

use crate::ints::put_size;
use crate::parts::{put_col, put_if};
use sky_io::{Put, Sink};
use sql_tree::{Atom, Expr, Factor, Prod, Signed};

/// Writes an expression.
#[cycle(put)]
pub fn put_expr<K: Sink>(sink: &mut K, e: &Expr) -> Put
    ensures { Wrote (K.state sink.old) (K.state sink.new) (print_expr e.now) result }
{
    match put_prod(sink, &e.first) {
        Put::Failed => Put::Failed,
        Put::Done => put_signeds(sink, e.rest.as_slice()),
    }
}

// Writes the later products of a sum.
#[cycle(put)]
fn put_signeds<K: Sink>(sink: &mut K, rest: &[Signed]) -> Put
    ensures { Wrote (K.state sink.old) (K.state sink.new)
        (behind_each [] (map print_signed rest.now)) result }
{
    for signed in rest {
        match put_signed(sink, signed) {
            Put::Failed => return Put::Failed,
            Put::Done => {}
        }
    }
    Put::Done
}

// Writes a later product of a sum.
#[cycle(put)]
fn put_signed<K: Sink>(sink: &mut K, signed: &Signed) -> Put
    ensures { Wrote (K.state sink.old) (K.state sink.new) (print_signed signed.now) result }
{
    match put_plus_or_minus(sink, signed.minus) {
        Put::Failed => Put::Failed,
        Put::Done => put_prod(sink, &signed.prod),
    }
}

// Writes the sign of a later product.
fn put_plus_or_minus<K: Sink>(sink: &mut K, minus: bool) -> Put
    ensures { Wrote (K.state sink.old) (K.state sink.new)
        (if minus then codes "-" else codes "+") result }
{
    if minus {
        sink.put(b"-")
    } else {
        sink.put(b"+")
    }
}

// Writes a product.
#[cycle(put)]
fn put_prod<K: Sink>(sink: &mut K, prod: &Prod) -> Put
    ensures { Wrote (K.state sink.old) (K.state sink.new) (print_prod prod.now) result }
{
    match put_factor(sink, &prod.first) {
        Put::Failed => Put::Failed,
        Put::Done => put_factors(sink, prod.rest.as_slice()),
    }
}

// Writes the later factors of a product.
#[cycle(put)]
fn put_factors<K: Sink>(sink: &mut K, rest: &[Factor]) -> Put
    ensures { Wrote (K.state sink.old) (K.state sink.new)
        (behind_each (codes "*") (map print_factor rest.now)) result }
{
    for factor in rest {
        match put_times(sink, factor) {
            Put::Failed => return Put::Failed,
            Put::Done => {}
        }
    }
    Put::Done
}

// Writes a later factor, and the star before it.
#[cycle(put)]
fn put_times<K: Sink>(sink: &mut K, factor: &Factor) -> Put
    ensures { Wrote (K.state sink.old) (K.state sink.new)
        (codes "*" ++ print_factor factor.now) result }
{
    match sink.put(b"*") {
        Put::Failed => Put::Failed,
        Put::Done => put_factor(sink, factor),
    }
}

// Writes a factor.
#[cycle(put)]
fn put_factor<K: Sink>(sink: &mut K, factor: &Factor) -> Put
    ensures { Wrote (K.state sink.old) (K.state sink.new) (print_factor factor.now) result }
{
    match put_if(sink, factor.minus, b"-") {
        Put::Failed => Put::Failed,
        Put::Done => put_atom(sink, &factor.atom),
    }
}

// Writes an atom.
#[cycle(put)]
fn put_atom<K: Sink>(sink: &mut K, atom: &Atom) -> Put
    ensures { Wrote (K.state sink.old) (K.state sink.new) (print_atom atom.now) result }
{
    match atom {
        Atom::Int(n) => put_size(sink, n),
        Atom::Col(col) => put_col(sink, col),
        Atom::Bracket(e) => put_bracket(sink, e.get()),
    }
}

/// Writes an expression in brackets.
#[cycle(put)]
pub(crate) fn put_bracket<K: Sink>(sink: &mut K, e: &Expr) -> Put
    ensures { Wrote (K.state sink.old) (K.state sink.new) (in_brackets (print_expr e.now)) result }
{
    match sink.put(b"(") {
        Put::Failed => Put::Failed,
        Put::Done => put_closed(sink, e),
    }
}

// Writes an expression, and the closing bracket.
#[cycle(put)]
fn put_closed<K: Sink>(sink: &mut K, e: &Expr) -> Put
    ensures { Wrote (K.state sink.old) (K.state sink.new) (print_expr e.now ++ codes ")") result }
{
    match put_expr(sink, e) {
        Put::Failed => Put::Failed,
        Put::Done => sink.put(b")"),
    }
}

/// Writes words followed by an expression.
pub(crate) fn put_led_expr<K: Sink>(sink: &mut K, words: &[u8], e: &Expr) -> Put
    ensures { Wrote (K.state sink.old) (K.state sink.new) (words.now ++ print_expr e.now) result }
{
    match sink.put(words) {
        Put::Failed => Put::Failed,
        Put::Done => put_expr(sink, e),
    }
}
