//! The first unknown name in WHERE.
ghost use Rattle.std.specs.Prelude.{◌≡◌, ◌++◌, [], ◌∷◌, map};
ghost use Rattle.text_rules.specs.Readings.{joined};
ghost use Rattle.bind_rules.specs.Mentions.{Side, mentioned, mentions_of_cond, mentions_of_where};
ghost use Rattle.bind_checks.specs.Parts.{conj_mentions, neg_mentions, pred_mentions};
ghost use Rattle.bind_checks.specs.Unknowns.{unknown_at};

use crate::columns::Columns;
use crate::unknown::unknown_in_expr;
use sql_token::Span;
use sql_tree::{Cond, Conj, Expr, Name, Neg, Pred};

/// Returns the span of the first unknown name in WHERE.
pub(crate) fn unknown_in_where<C: Columns>(columns: &C, cond: &Option<Cond>) -> Option<Span>
    ensures { result ≡ unknown_at (C.known columns.now) (mentions_of_where cond.now) }
{
    match cond {
        Some(cond) => unknown_in_cond(columns, cond),
        None => None,
    }
}

// Searches a condition.
#[cycle(unknown)]
fn unknown_in_cond<C: Columns>(columns: &C, cond: &Cond) -> Option<Span>
    ensures { result ≡ unknown_at (C.known columns.now) (mentions_of_cond cond.now) }
{
    match unknown_in_conj(columns, &cond.first) {
        Some(span) => Some(span),
        None => unknown_in_conjs(columns, cond.rest.as_slice()),
    }
}

// Searches the conjunctions of a condition after the first.
#[cycle(unknown)]
fn unknown_in_conjs<C: Columns>(columns: &C, rest: &[Conj]) -> Option<Span>
    ensures { result ≡ unknown_at (C.known columns.now) (joined (map conj_mentions rest.now)) }
{
    for conj in rest {
        match unknown_in_conj(columns, conj) {
            Some(span) => return Some(span),
            None => {}
        }
    }
    None
}

// Searches a conjunction.
#[cycle(unknown)]
fn unknown_in_conj<C: Columns>(columns: &C, conj: &Conj) -> Option<Span>
    ensures { result ≡ unknown_at (C.known columns.now) (conj_mentions conj.now) }
{
    match unknown_in_neg(columns, &conj.first) {
        Some(span) => Some(span),
        None => unknown_in_negs(columns, conj.rest.as_slice()),
    }
}

// Searches the predicates of a conjunction after the first.
#[cycle(unknown)]
fn unknown_in_negs<C: Columns>(columns: &C, rest: &[Neg]) -> Option<Span>
    ensures { result ≡ unknown_at (C.known columns.now) (joined (map neg_mentions rest.now)) }
{
    for neg in rest {
        match unknown_in_neg(columns, neg) {
            Some(span) => return Some(span),
            None => {}
        }
    }
    None
}

// Searches a predicate, with or without NOT.
#[cycle(unknown)]
fn unknown_in_neg<C: Columns>(columns: &C, neg: &Neg) -> Option<Span>
    ensures { result ≡ unknown_at (C.known columns.now) (neg_mentions neg.now) }
{
    unknown_in_pred(columns, &neg.pred)
}

// Searches a predicate: its expressions from the left, or the condition in brackets.
#[cycle(unknown)]
fn unknown_in_pred<C: Columns>(columns: &C, pred: &Pred) -> Option<Span>
    ensures { result ≡ unknown_at (C.known columns.now) (pred_mentions pred.now) }
{
    match pred {
        Pred::Bracket(cond) => unknown_in_cond(columns, cond.get()),
        Pred::Compare { left, right, .. } => unknown_in_two(columns, left, right),
        Pred::Between {
            value,
            low,
            high,
            ..
        } => unknown_in_three(columns, value, low, high),
        Pred::Among { value, .. } => unknown_in_expr(columns, value),
        Pred::IsNull { value, .. } => unknown_in_expr(columns, value),
        Pred::Area { .. } => None,
        Pred::Chord { left, right, .. } => unknown_side_of_two(columns, left, right),
    }
}

// Searches two expressions, one after the other.
fn unknown_in_two<C: Columns>(columns: &C, first: &Expr, second: &Expr) -> Option<Span>
    ensures { result ≡ unknown_at (C.known columns.now)
        (mentioned first.now ++ mentioned second.now) }
{
    match unknown_in_expr(columns, first) {
        Some(span) => Some(span),
        None => unknown_in_expr(columns, second),
    }
}

// Searches three expressions, one after another.
fn unknown_in_three<C: Columns>(
    columns: &C,
    first: &Expr,
    second: &Expr,
    third: &Expr,
) -> Option<Span>
    ensures { result ≡ unknown_at (C.known columns.now)
        (mentioned first.now ++ mentioned second.now ++ mentioned third.now) }
{
    match unknown_in_two(columns, first, second) {
        Some(span) => Some(span),
        None => unknown_in_expr(columns, third),
    }
}

// Checks a name in a chord test, which must be the qualifier of a table.
#[tactic(auto, unfolding(query_walks::specs::Firsts::first_place))]
fn unknown_side<C: Columns>(columns: &C, name: &Name) -> Option<Span>
    ensures { result ≡ unknown_at (C.known columns.now)
        (Side name.now ∷ []) }
{
    if columns.is_qualifier(name.text.as_slice()) {
        None
    } else {
        Some(name.span)
    }
}

// Checks both names of a chord test.
fn unknown_side_of_two<C: Columns>(columns: &C, left: &Name, right: &Name) -> Option<Span>
    ensures { result ≡ unknown_at (C.known columns.now)
        (Side left.now ∷ Side right.now ∷ []) }
{
    match unknown_side(columns, left) {
        Some(span) => Some(span),
        None => unknown_side(columns, right),
    }
}
