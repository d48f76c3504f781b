//! Plain items of a grouped query, as the merge has them: each column is that of its key. One function writes one rule
//! of the syntax.
ghost use Rattle.std.specs.Prelude.{◌≡◌, ◌++◌, ◌+◌, ◌-◌, ◌<◌, ◌≤◌, ◌^◌, [], codes, if◌then◌else◌, length, map};
ghost use Rattle.std.specs.List.{position};
ghost use Rattle.sky_io.specs.Sinks.{Wrote};
ghost use Rattle.sql_rules.specs.PrintedExprs.{behind_each, in_brackets};
ghost use Rattle.value_rules.specs.Sound.{same_col};
ghost use Rattle.answer_rules.specs.Rewriting.{key_place};
ghost use Rattle.transcript_rules.specs.ColumnNames.{column_name};
ghost use Rattle.transcript_rules.specs.MergeLines.{key_expr_text};
ghost use Rattle.explain_text.specs.Explaining.{key_atom_text, key_factor_text, key_prod_text, key_signed_text};

use column_text::column_places::put_column_name;
use sky_io::{Put, Sink};
use sql_bound::{BoundAtom, BoundCol, BoundExpr, BoundFactor, BoundProd, BoundSigned};
use sql_print::{put_if, put_size};

// Returns whether the two are the same column.
fn is_same(a: BoundCol, b: BoundCol) -> bool
    ensures { result ≡ same_col a b }
{
    a.second == b.second && a.col == b.col
}

// Returns the position of the first key that is this column, if there is one.
fn position_of(keys: &[BoundCol], col: BoundCol) -> Option<usize>
    ensures { result ≡ position (λ k. same_col k col) keys.now }
{
    keys.iter().position(|key| is_same(*key, col))
}

// Returns the position of the first key that is this column, or the number of keys if there is none.
#[tactic(auto, using(crate::proofs::KeyPlaces::place_within))]
fn key_place(keys: &[BoundCol], col: BoundCol) -> usize
    ensures place { result ≡ key_place keys.now col }
    ensures within { result ≤ 2 ^ 63 }
{
    match position_of(keys, col) {
        Some(place) => place,
        None => keys.len(),
    }
}

// Writes the column of a key.
fn put_key_column<K: Sink>(sink: &mut K, keys: &[BoundCol], col: BoundCol) -> Put
    ensures { Wrote (K.state sink.old) (K.state sink.new) (column_name (key_place keys.now col))
        result }
{
    put_column_name(sink, key_place(keys, col) as u128)
}

/// Writes an expression over the keys of a group.
#[cycle(put)]
pub(crate) fn put_key_expr<K: Sink>(sink: &mut K, keys: &[BoundCol], e: &BoundExpr) -> Put
    ensures { Wrote (K.state sink.old) (K.state sink.new) (key_expr_text keys.now e.now) result }
{
    match put_prod(sink, keys, &e.first) {
        Put::Failed => Put::Failed,
        Put::Done => put_signeds(sink, keys, e.rest.as_slice()),
    }
}

// Writes the products of a sum after the first.
#[cycle(put)]
fn put_signeds<K: Sink>(sink: &mut K, keys: &[BoundCol], rest: &[BoundSigned]) -> Put
    ensures { Wrote (K.state sink.old) (K.state sink.new)
        (behind_each [] (map (key_signed_text keys.now) rest.now)) result }
{
    for signed in rest {
        match put_signed(sink, keys, signed) {
            Put::Failed => return Put::Failed,
            Put::Done => {}
        }
    }
    Put::Done
}

// Writes a product of a sum after the first, and its sign before it.
#[cycle(put)]
fn put_signed<K: Sink>(sink: &mut K, keys: &[BoundCol], signed: &BoundSigned) -> Put
    ensures { Wrote (K.state sink.old) (K.state sink.new) (key_signed_text keys.now signed.now)
        result }
{
    match put_plus_or_minus(sink, signed.minus) {
        Put::Failed => Put::Failed,
        Put::Done => put_prod(sink, keys, &signed.prod),
    }
}

// Writes the sign of a product after the first.
fn put_plus_or_minus<K: Sink>(sink: &mut K, minus: bool) -> Put
    ensures { Wrote (K.state sink.old) (K.state sink.new)
        (if minus then codes "-" else codes "+") result }
{
    if minus {
        sink.put(b"-")
    } else {
        sink.put(b"+")
    }
}

// Writes a product.
#[cycle(put)]
fn put_prod<K: Sink>(sink: &mut K, keys: &[BoundCol], prod: &BoundProd) -> Put
    ensures { Wrote (K.state sink.old) (K.state sink.new) (key_prod_text keys.now prod.now) result }
{
    match put_factor(sink, keys, &prod.first) {
        Put::Failed => Put::Failed,
        Put::Done => put_factors(sink, keys, prod.rest.as_slice()),
    }
}

// Writes the factors of a product after the first.
#[cycle(put)]
fn put_factors<K: Sink>(sink: &mut K, keys: &[BoundCol], rest: &[BoundFactor]) -> Put
    ensures { Wrote (K.state sink.old) (K.state sink.new)
        (behind_each (codes "*") (map (key_factor_text keys.now) rest.now)) result }
{
    for factor in rest {
        match put_times(sink, keys, factor) {
            Put::Failed => return Put::Failed,
            Put::Done => {}
        }
    }
    Put::Done
}

// Writes a factor, and the star before it.
#[cycle(put)]
fn put_times<K: Sink>(sink: &mut K, keys: &[BoundCol], factor: &BoundFactor) -> Put
    ensures { Wrote (K.state sink.old) (K.state sink.new)
        (codes "*" ++ key_factor_text keys.now factor.now) result }
{
    match sink.put(b"*") {
        Put::Failed => Put::Failed,
        Put::Done => put_factor(sink, keys, factor),
    }
}

// Writes a factor.
#[cycle(put)]
fn put_factor<K: Sink>(sink: &mut K, keys: &[BoundCol], factor: &BoundFactor) -> Put
    ensures { Wrote (K.state sink.old) (K.state sink.new) (key_factor_text keys.now factor.now)
        result }
{
    match put_if(sink, factor.minus, b"-") {
        Put::Failed => Put::Failed,
        Put::Done => put_atom(sink, keys, &factor.atom),
    }
}

// Writes an atom.
#[cycle(put)]
fn put_atom<K: Sink>(sink: &mut K, keys: &[BoundCol], atom: &BoundAtom) -> Put
    ensures { Wrote (K.state sink.old) (K.state sink.new) (key_atom_text keys.now atom.now) result }
{
    match atom {
        BoundAtom::Int(n) => put_size(sink, n),
        BoundAtom::Col(col) => put_key_column(sink, keys, *col),
        BoundAtom::Bracket(e) => put_bracket(sink, keys, e.get()),
    }
}

// Writes an expression in brackets.
#[cycle(put)]
fn put_bracket<K: Sink>(sink: &mut K, keys: &[BoundCol], e: &BoundExpr) -> Put
    ensures { Wrote (K.state sink.old) (K.state sink.new)
        (in_brackets (key_expr_text keys.now e.now)) result }
{
    match sink.put(b"(") {
        Put::Failed => Put::Failed,
        Put::Done => put_closed(sink, keys, e),
    }
}

// Writes an expression, and the closing bracket.
#[cycle(put)]
fn put_closed<K: Sink>(sink: &mut K, keys: &[BoundCol], e: &BoundExpr) -> Put
    ensures { Wrote (K.state sink.old) (K.state sink.new)
        (key_expr_text keys.now e.now ++ codes ")") result }
{
    match put_key_expr(sink, keys, e) {
        Put::Failed => Put::Failed,
        Put::Done => sink.put(b")"),
    }
}
