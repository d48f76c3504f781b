//! Prints integers and lists of integers. One function writes one rule of the printed syntax.
ghost use Rattle.std.specs.Prelude.{◌≡◌, ◌++◌, codes, map};
ghost use Rattle.std.specs.Fmt.{signed_decimal};
ghost use Rattle.sky_io.specs.Sinks.{Wrote};
ghost use Rattle.sql_tree.specs.Bare.{is_minus};
ghost use Rattle.sql_rules.specs.PrintedConds.{print_int, print_ints};
ghost use Rattle.sql_rules.specs.PrintedExprs.{behind_each, text_if};

use crate::parts::put_if;
use sky_io::{Put, Sink};
use sky_text::put_int;
use sql_tree::{Int, IntList, SignedInt};

/// Writes an integer.
pub fn put_size<K: Sink>(sink: &mut K, size: &Int) -> Put
    ensures { Wrote (K.state sink.old) (K.state sink.new) (signed_decimal size.now) result }
{
    put_int(sink, i128::from(size.get()))
}

/// Writes words followed by an integer.
pub fn put_led_size<K: Sink>(sink: &mut K, words: &[u8], size: &Int) -> Put
    ensures { Wrote (K.state sink.old) (K.state sink.new) (words.now ++ signed_decimal size.now)
        result }
{
    match sink.put(words) {
        Put::Failed => Put::Failed,
        Put::Done => put_size(sink, size),
    }
}

// Whether the integer is below zero: a zero has no sign.
fn is_below_zero(int: &SignedInt) -> bool
    ensures { result ≡ is_minus int.now }
{
    int.minus && int.size.get() != 0
}

// Writes an integer with its sign.
fn put_signed_int<K: Sink>(sink: &mut K, int: &SignedInt) -> Put
    ensures { Wrote (K.state sink.old) (K.state sink.new) (print_int int.now) result }
{
    match put_if(sink, is_below_zero(int), b"-") {
        Put::Failed => Put::Failed,
        Put::Done => put_size(sink, &int.size),
    }
}

// Writes a later integer of a list, and the comma before it.
fn put_further_int<K: Sink>(sink: &mut K, int: &SignedInt) -> Put
    ensures { Wrote (K.state sink.old) (K.state sink.new) (codes "," ++ print_int int.now) result }
{
    match sink.put(b",") {
        Put::Failed => Put::Failed,
        Put::Done => put_signed_int(sink, int),
    }
}

// Writes the integers after the first of a list.
fn put_further_ints<K: Sink>(sink: &mut K, rest: &[SignedInt]) -> Put
    ensures { Wrote (K.state sink.old) (K.state sink.new)
        (behind_each (codes ",") (map print_int rest.now)) result }
{
    for int in rest {
        match put_further_int(sink, int) {
            Put::Failed => return Put::Failed,
            Put::Done => {}
        }
    }
    Put::Done
}

// Writes integers without brackets.
fn put_bare_ints<K: Sink>(sink: &mut K, ints: &IntList) -> Put
    ensures { Wrote (K.state sink.old) (K.state sink.new)
        (print_int ints.now.first ++ behind_each (codes ",") (map print_int ints.now.rest)) result }
{
    match put_signed_int(sink, &ints.first) {
        Put::Failed => Put::Failed,
        Put::Done => put_further_ints(sink, ints.rest.as_slice()),
    }
}

// Writes integers, and the closing bracket.
fn put_closed_ints<K: Sink>(sink: &mut K, ints: &IntList) -> Put
    ensures { Wrote (K.state sink.old) (K.state sink.new)
        ((print_int ints.now.first ++ behind_each (codes ",") (map print_int ints.now.rest))
        ++ codes ")") result }
{
    match put_bare_ints(sink, ints) {
        Put::Failed => Put::Failed,
        Put::Done => sink.put(b")"),
    }
}

// Writes integers in brackets.
fn put_ints<K: Sink>(sink: &mut K, ints: &IntList) -> Put
    ensures { Wrote (K.state sink.old) (K.state sink.new) (print_ints ints.now) result }
{
    match sink.put(b"(") {
        Put::Failed => Put::Failed,
        Put::Done => put_closed_ints(sink, ints),
    }
}

/// Writes words followed by integers in brackets.
pub(crate) fn put_led_ints<K: Sink>(sink: &mut K, words: &[u8], ints: &IntList) -> Put
    ensures { Wrote (K.state sink.old) (K.state sink.new)
        (words.now ++ print_ints ints.now) result }
{
    match sink.put(words) {
        Put::Failed => Put::Failed,
        Put::Done => put_ints(sink, ints),
    }
}
