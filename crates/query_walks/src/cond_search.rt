//! Search for an expression in WHERE that passes a test.
ghost use Rattle.std.specs.Prelude.{◌≡◌, [], ◌∷◌, map};
ghost use Rattle.std.specs.List.{list_any};
ghost use Rattle.text_rules.specs.Readings.{joined};
ghost use Rattle.bind_rules.specs.Widths.{exprs_in, exprs_of};
ghost use Rattle.query_walks.specs.Parts.{conj_exprs, neg_exprs, pred_exprs};

use crate::expr_search::ExprTest;
use sql_tree::{Cond, Conj, Expr, Neg, Pred};

/// Returns whether an expression in WHERE passes the test.
pub(crate) fn is_in_where<T: ExprTest>(test: &T, cond: &Option<Cond>) -> bool
    ensures { result ≡ list_any (T.passes test.now) (exprs_in cond.now) }
{
    match cond {
        Some(cond) => is_in_cond(test, cond),
        None => false,
    }
}

// Searches a condition.
#[cycle(search)]
fn is_in_cond<T: ExprTest>(test: &T, cond: &Cond) -> bool
    ensures { result ≡ list_any (T.passes test.now) (exprs_of cond.now) }
{
    if is_in_conj(test, &cond.first) {
        true
    } else {
        is_in_conjs(test, cond.rest.as_slice())
    }
}

// Searches the conjunctions of a condition after the first.
#[cycle(search)]
fn is_in_conjs<T: ExprTest>(test: &T, rest: &[Conj]) -> bool
    ensures { result ≡ list_any (T.passes test.now) (joined (map conj_exprs rest.now)) }
{
    for conj in rest {
        if is_in_conj(test, conj) {
            return true;
        }
    }
    false
}

// Searches a conjunction.
#[cycle(search)]
fn is_in_conj<T: ExprTest>(test: &T, conj: &Conj) -> bool
    ensures { result ≡ list_any (T.passes test.now) (conj_exprs conj.now) }
{
    if is_in_neg(test, &conj.first) {
        true
    } else {
        is_in_negs(test, conj.rest.as_slice())
    }
}

// Searches the predicates of a conjunction after the first.
#[cycle(search)]
fn is_in_negs<T: ExprTest>(test: &T, rest: &[Neg]) -> bool
    ensures { result ≡ list_any (T.passes test.now) (joined (map neg_exprs rest.now)) }
{
    for neg in rest {
        if is_in_neg(test, neg) {
            return true;
        }
    }
    false
}

// Searches a predicate, with or without NOT.
#[cycle(search)]
fn is_in_neg<T: ExprTest>(test: &T, neg: &Neg) -> bool
    ensures { result ≡ list_any (T.passes test.now) (neg_exprs neg.now) }
{
    is_in_pred(test, &neg.pred)
}

// Searches a predicate: its own expressions, or the condition in brackets.
#[cycle(search)]
fn is_in_pred<T: ExprTest>(test: &T, pred: &Pred) -> bool
    ensures { result ≡ list_any (T.passes test.now) (pred_exprs pred.now) }
{
    match pred {
        Pred::Bracket(cond) => is_in_cond(test, cond.get()),
        Pred::Compare { left, right, .. } => is_one_of_two(test, left, right),
        Pred::Between {
            value,
            low,
            high,
            ..
        } => is_one_of_three(test, value, low, high),
        Pred::Among { value, .. } => is_one(test, value),
        Pred::IsNull { value, .. } => is_one(test, value),
        Pred::Area { .. } => false,
        Pred::Chord { .. } => false,
    }
}

// Returns whether this expression passes the test.
fn is_one<T: ExprTest>(test: &T, e: &Expr) -> bool
    ensures { result ≡ list_any (T.passes test.now) (e.now ∷ []) }
{
    test.passes(e)
}

// Returns whether one of two expressions passes the test.
fn is_one_of_two<T: ExprTest>(test: &T, first: &Expr, second: &Expr) -> bool
    ensures { result ≡ list_any (T.passes test.now) (first.now ∷ second.now ∷ []) }
{
    test.passes(first) || test.passes(second)
}

// Returns whether one of three expressions passes the test.
fn is_one_of_three<T: ExprTest>(test: &T, first: &Expr, second: &Expr, third: &Expr) -> bool
    ensures { result ≡
        list_any (T.passes test.now) (first.now ∷ second.now ∷ third.now ∷ []) }
{
    test.passes(first) || is_one_of_two(test, second, third)
}
