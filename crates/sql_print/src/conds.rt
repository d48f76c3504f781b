//! Prints conditions. One function writes one rule of the printed syntax.
ghost use Rattle.std.specs.Prelude.{◌≡◌, ◌++◌, codes, map};
ghost use Rattle.sky_io.specs.Sinks.{Wrote};
ghost use Rattle.sql_rules.specs.PrintedConds.{print_cond, print_conj, print_neg, print_pred};
ghost use Rattle.sql_rules.specs.PrintedExprs.{behind_each, in_brackets};

use crate::parts::put_if;
use crate::preds::{put_among, put_area, put_between, put_chord, put_compare, put_is_null};
use sky_io::{Put, Sink};
use sql_tree::{Cond, Conj, Neg, Pred};

/// Writes a condition.
#[cycle(put)]
pub fn put_cond<K: Sink>(sink: &mut K, cond: &Cond) -> Put
    ensures { Wrote (K.state sink.old) (K.state sink.new) (print_cond cond.now) result }
{
    match put_conj(sink, &cond.first) {
        Put::Failed => Put::Failed,
        Put::Done => put_conjs(sink, cond.rest.as_slice()),
    }
}

// Writes the later conjunctions of a condition.
#[cycle(put)]
fn put_conjs<K: Sink>(sink: &mut K, rest: &[Conj]) -> Put
    ensures { Wrote (K.state sink.old) (K.state sink.new)
        (behind_each (codes " OR ") (map print_conj rest.now)) result }
{
    for conj in rest {
        match put_or_conj(sink, conj) {
            Put::Failed => return Put::Failed,
            Put::Done => {}
        }
    }
    Put::Done
}

// Writes a later conjunction, and the OR before it.
#[cycle(put)]
fn put_or_conj<K: Sink>(sink: &mut K, conj: &Conj) -> Put
    ensures { Wrote (K.state sink.old) (K.state sink.new)
        (codes " OR " ++ print_conj conj.now) result }
{
    match sink.put(b" OR ") {
        Put::Failed => Put::Failed,
        Put::Done => put_conj(sink, conj),
    }
}

// Writes a conjunction.
#[cycle(put)]
fn put_conj<K: Sink>(sink: &mut K, conj: &Conj) -> Put
    ensures { Wrote (K.state sink.old) (K.state sink.new) (print_conj conj.now) result }
{
    match put_neg(sink, &conj.first) {
        Put::Failed => Put::Failed,
        Put::Done => put_negs(sink, conj.rest.as_slice()),
    }
}

// Writes the later predicates of a conjunction.
#[cycle(put)]
fn put_negs<K: Sink>(sink: &mut K, rest: &[Neg]) -> Put
    ensures { Wrote (K.state sink.old) (K.state sink.new)
        (behind_each (codes " AND ") (map print_neg rest.now)) result }
{
    for neg in rest {
        match put_and_neg(sink, neg) {
            Put::Failed => return Put::Failed,
            Put::Done => {}
        }
    }
    Put::Done
}

// Writes a later predicate, and the AND before it.
#[cycle(put)]
fn put_and_neg<K: Sink>(sink: &mut K, neg: &Neg) -> Put
    ensures { Wrote (K.state sink.old) (K.state sink.new)
        (codes " AND " ++ print_neg neg.now) result }
{
    match sink.put(b" AND ") {
        Put::Failed => Put::Failed,
        Put::Done => put_neg(sink, neg),
    }
}

// Writes a predicate, and the NOT before it, if any.
#[cycle(put)]
fn put_neg<K: Sink>(sink: &mut K, neg: &Neg) -> Put
    ensures { Wrote (K.state sink.old) (K.state sink.new) (print_neg neg.now) result }
{
    match put_if(sink, neg.not, b"NOT ") {
        Put::Failed => Put::Failed,
        Put::Done => put_pred(sink, &neg.pred),
    }
}

// Writes a predicate.
#[cycle(put)]
fn put_pred<K: Sink>(sink: &mut K, pred: &Pred) -> Put
    ensures { Wrote (K.state sink.old) (K.state sink.new) (print_pred pred.now) result }
{
    match pred {
        Pred::Bracket(cond) => put_group(sink, cond.get()),
        Pred::Compare { left, op, right } => put_compare(sink, left, *op, right),
        Pred::Between {
            not,
            value,
            low,
            high,
        } => put_between(sink, *not, value, low, high),
        Pred::Among { not, value, list } => put_among(sink, *not, value, list),
        Pred::IsNull { not, value } => put_is_null(sink, *not, value),
        Pred::Area { kind, args, .. } => put_area(sink, *kind, args),
        Pred::Chord {
            left,
            right,
            strict,
            n,
        } => put_chord(sink, left, right, *strict, n),
    }
}

// Writes a condition in brackets.
#[cycle(put)]
fn put_group<K: Sink>(sink: &mut K, cond: &Cond) -> Put
    ensures { Wrote (K.state sink.old) (K.state sink.new)
        (in_brackets (print_cond cond.now)) result }
{
    match sink.put(b"(") {
        Put::Failed => Put::Failed,
        Put::Done => put_closed(sink, cond),
    }
}

// Writes a condition, and the closing bracket.
#[cycle(put)]
fn put_closed<K: Sink>(sink: &mut K, cond: &Cond) -> Put
    ensures { Wrote (K.state sink.old) (K.state sink.new)
        (print_cond cond.now ++ codes ")") result }
{
    match put_cond(sink, cond) {
        Put::Failed => Put::Failed,
        Put::Done => sink.put(b")"),
    }
}
