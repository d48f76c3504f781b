//! Compares conditions up to their spans and the sign of a zero in a list of integers.
ghost use Rattle.std.specs.Prelude.{◌≡◌, ◌↔◌, IsTrue, map};
ghost use Rattle.sql_tree.specs.Bare.{bare_cond, bare_conj, bare_expr, bare_int, bare_ints, bare_name, bare_neg, bare_pred, is_minus};

use crate::cond::{AreaKind, Cmp, Cond, Conj, IntList, Neg, Pred, SignedInt};
use crate::expr::Expr;
use crate::name::Name;
use crate::same_expr::{same_expr, same_int, same_name};
use sql_token::{Int, Span};

fn same_flag(a: &bool, b: &bool) -> bool
    ensures { IsTrue result ↔ (a.now ≡ b.now) }
{
    a == b
}

fn same_cmp(a: &Cmp, b: &Cmp) -> bool
    ensures { IsTrue result ↔ (a.now ≡ b.now) }
{
    a == b
}

fn same_area_kind(a: &AreaKind, b: &AreaKind) -> bool
    ensures { IsTrue result ↔ (a.now ≡ b.now) }
{
    a == b
}

fn is_below_zero(a: &SignedInt) -> bool
    ensures { result ≡ is_minus a.now }
{
    a.minus && a.size.get() != 0
}

#[tactic(auto, unfolding(crate::specs::Bare::bare_int))]
fn same_signed_int(a: &SignedInt, b: &SignedInt) -> bool
    ensures { IsTrue result ↔ (bare_int a.now ≡ bare_int b.now) }
{
    same_flag(&is_below_zero(a), &is_below_zero(b)) && same_int(&a.size, &b.size)
}

#[tactic(auto, using(crate::proofs::Lists::same_lengths, crate::proofs::Lists::same_item, crate::proofs::Lists::one_more, crate::proofs::Lists::all_taken))]
fn same_signed_ints(a: &[SignedInt], b: &[SignedInt]) -> bool
    ensures { IsTrue result ↔ (map bare_int a.now ≡ map bare_int b.now) }
{
    if a.len() != b.len() {
        return false;
    }
    for at in 0..a.len() {
        if !same_signed_int(&a[at], &b[at]) {
            return false;
        }
    }
    true
}

fn same_ints(a: &IntList, b: &IntList) -> bool
    ensures { IsTrue result ↔ (bare_ints a.now ≡ bare_ints b.now) }
{
    same_signed_int(&a.first, &b.first) && same_signed_ints(a.rest.as_slice(), b.rest.as_slice())
}

fn same_compare(left: (&Expr, &Expr), op: (&Cmp, &Cmp), right: (&Expr, &Expr)) -> bool
    ensures { IsTrue result ↔ ((bare_expr left.entry.0.now ≡ bare_expr left.entry.1.now)
        × (op.entry.0.now ≡ op.entry.1.now)
        × (bare_expr right.entry.0.now ≡ bare_expr right.entry.1.now)) }
{
    same_expr(left.0, left.1) && same_cmp(op.0, op.1) && same_expr(right.0, right.1)
}

fn same_valued(not: (&bool, &bool), value: (&Expr, &Expr)) -> bool
    ensures { IsTrue result ↔ ((not.entry.0.now ≡ not.entry.1.now)
        × (bare_expr value.entry.0.now ≡ bare_expr value.entry.1.now)) }
{
    same_flag(not.0, not.1) && same_expr(value.0, value.1)
}

fn same_between(
    not: (&bool, &bool),
    value: (&Expr, &Expr),
    low: (&Expr, &Expr),
    high: (&Expr, &Expr),
) -> bool
    ensures { IsTrue result ↔ ((not.entry.0.now ≡ not.entry.1.now)
        × (bare_expr value.entry.0.now ≡ bare_expr value.entry.1.now)
        × (bare_expr low.entry.0.now ≡ bare_expr low.entry.1.now)
        × (bare_expr high.entry.0.now ≡ bare_expr high.entry.1.now)) }
{
    same_valued(not, value) && same_expr(low.0, low.1) && same_expr(high.0, high.1)
}

fn same_among(not: (&bool, &bool), value: (&Expr, &Expr), list: (&IntList, &IntList)) -> bool
    ensures { IsTrue result ↔ ((not.entry.0.now ≡ not.entry.1.now)
        × (bare_expr value.entry.0.now ≡ bare_expr value.entry.1.now)
        × (bare_ints list.entry.0.now ≡ bare_ints list.entry.1.now)) }
{
    same_valued(not, value) && same_ints(list.0, list.1)
}

fn same_area(kind: (&AreaKind, &AreaKind), args: (&IntList, &IntList)) -> bool
    ensures { IsTrue result ↔ ((kind.entry.0.now ≡ kind.entry.1.now)
        × (bare_ints args.entry.0.now ≡ bare_ints args.entry.1.now)) }
{
    same_area_kind(kind.0, kind.1) && same_ints(args.0, args.1)
}

fn same_chord(
    left: (&Name, &Name),
    right: (&Name, &Name),
    strict: (&bool, &bool),
    n: (&Int, &Int),
) -> bool
    ensures { IsTrue result ↔ ((bare_name left.entry.0.now ≡ bare_name left.entry.1.now)
        × (bare_name right.entry.0.now ≡ bare_name right.entry.1.now)
        × (strict.entry.0.now ≡ strict.entry.1.now)
        × (n.entry.0.now ≡ n.entry.1.now)) }
{
    same_name(left.0, left.1)
        && same_name(right.0, right.1)
        && same_flag(strict.0, strict.1)
        && same_int(n.0, n.1)
}

#[cycle(same)]
#[tactic(auto, using(crate::proofs::CondParts::cond_whole, crate::proofs::CondParts::cond_first, crate::proofs::CondParts::cond_rest))]
pub(crate) fn same_cond(a: &Cond, b: &Cond) -> bool
    ensures { IsTrue result ↔ (bare_cond a.now ≡ bare_cond b.now) }
{
    same_conj(&a.first, &b.first) && same_conjs(a.rest.as_slice(), b.rest.as_slice())
}

#[cycle(same)]
#[tactic(auto, using(crate::proofs::Lists::same_lengths, crate::proofs::Lists::same_item, crate::proofs::Lists::one_more, crate::proofs::Lists::all_taken))]
fn same_conjs(a: &[Conj], b: &[Conj]) -> bool
    ensures { IsTrue result ↔ (map bare_conj a.now ≡ map bare_conj b.now) }
{
    if a.len() != b.len() {
        return false;
    }
    for at in 0..a.len() {
        if !same_conj(&a[at], &b[at]) {
            return false;
        }
    }
    true
}

#[cycle(same)]
#[tactic(auto, using(crate::proofs::CondParts::conj_whole, crate::proofs::CondParts::conj_first, crate::proofs::CondParts::conj_rest))]
fn same_conj(a: &Conj, b: &Conj) -> bool
    ensures { IsTrue result ↔ (bare_conj a.now ≡ bare_conj b.now) }
{
    same_neg(&a.first, &b.first) && same_negs(a.rest.as_slice(), b.rest.as_slice())
}

#[cycle(same)]
#[tactic(auto, using(crate::proofs::Lists::same_lengths, crate::proofs::Lists::same_item, crate::proofs::Lists::one_more, crate::proofs::Lists::all_taken))]
fn same_negs(a: &[Neg], b: &[Neg]) -> bool
    ensures { IsTrue result ↔ (map bare_neg a.now ≡ map bare_neg b.now) }
{
    if a.len() != b.len() {
        return false;
    }
    for at in 0..a.len() {
        if !same_neg(&a[at], &b[at]) {
            return false;
        }
    }
    true
}

#[cycle(same)]
#[tactic(auto, using(crate::proofs::CondParts::neg_whole, crate::proofs::CondParts::neg_not, crate::proofs::CondParts::neg_pred))]
fn same_neg(a: &Neg, b: &Neg) -> bool
    ensures { IsTrue result ↔ (bare_neg a.now ≡ bare_neg b.now) }
{
    a.not == b.not && same_pred(&a.pred, &b.pred)
}

// For each kind of predicate, whether the other predicate is of this kind too, with the same parts.
#[cycle(same)]
fn is_bracket(cond: &Cond, other: &Pred) -> bool
    ensures { IsTrue result ↔ (bare_pred (Pred.Bracket cond.now) ≡ bare_pred other.now) }
{
    match other {
        Pred::Bracket(c) => same_cond(cond, c.get()),
        _ => false,
    }
}

fn is_compare(left: &Expr, op: &Cmp, right: &Expr, other: &Pred) -> bool
    ensures { IsTrue result ↔ (bare_pred (Pred.Compare left.now op.now right.now)
        ≡ bare_pred other.now) }
{
    match other {
        Pred::Compare {
            left: l,
            op: o,
            right: r,
        } => same_compare((left, l), (op, o), (right, r)),
        _ => false,
    }
}

fn is_between(not: &bool, value: &Expr, low: &Expr, high: &Expr, other: &Pred) -> bool
    ensures { IsTrue result ↔ (bare_pred (Pred.Between not.now value.now low.now high.now)
        ≡ bare_pred other.now) }
{
    match other {
        Pred::Between {
            not: n,
            value: v,
            low: l,
            high: h,
        } => same_between((not, n), (value, v), (low, l), (high, h)),
        _ => false,
    }
}

fn is_among(not: &bool, value: &Expr, list: &IntList, other: &Pred) -> bool
    ensures { IsTrue result ↔ (bare_pred (Pred.Among not.now value.now list.now)
        ≡ bare_pred other.now) }
{
    match other {
        Pred::Among {
            not: n,
            value: v,
            list: l,
        } => same_among((not, n), (value, v), (list, l)),
        _ => false,
    }
}

fn is_null(not: &bool, value: &Expr, other: &Pred) -> bool
    ensures { IsTrue result ↔ (bare_pred (Pred.IsNull not.now value.now) ≡ bare_pred other.now) }
{
    match other {
        Pred::IsNull { not: n, value: v } => same_valued((not, n), (value, v)),
        _ => false,
    }
}

fn is_area(kind: &AreaKind, span: &Span, args: &IntList, other: &Pred) -> bool
    ensures { IsTrue result ↔ (bare_pred (Pred.Area kind.now span.now args.now)
        ≡ bare_pred other.now) }
{
    match other {
        Pred::Area {
            kind: k,
            args: l,
            ..
        } => same_area((kind, k), (args, l)),
        _ => false,
    }
}

fn is_chord(left: &Name, right: &Name, strict: &bool, n: &Int, other: &Pred) -> bool
    ensures { IsTrue result ↔ (bare_pred (Pred.Chord left.now right.now strict.now n.now)
        ≡ bare_pred other.now) }
{
    match other {
        Pred::Chord {
            left: l,
            right: r,
            strict: s,
            n: m,
        } => same_chord((left, l), (right, r), (strict, s), (n, m)),
        _ => false,
    }
}

#[cycle(same)]
fn same_pred(a: &Pred, b: &Pred) -> bool
    ensures { IsTrue result ↔ (bare_pred a.now ≡ bare_pred b.now) }
{
    match a {
        Pred::Bracket(c) => is_bracket(c.get(), b),
        Pred::Compare { left, op, right } => is_compare(left, op, right, b),
        Pred::Between {
            not,
            value,
            low,
            high,
        } => is_between(not, value, low, high, b),
        Pred::Among { not, value, list } => is_among(not, value, list, b),
        Pred::IsNull { not, value } => is_null(not, value, b),
        Pred::Area { kind, span, args } => is_area(kind, span, args, b),
        Pred::Chord {
            left,
            right,
            strict,
            n,
        } => is_chord(left, right, strict, n, b),
    }
}
