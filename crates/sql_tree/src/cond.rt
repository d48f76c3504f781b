//! Conditions: alternatives of conjunctions of predicates.

use crate::expr::Expr;
use crate::name::Name;
use sql_token::{Int, Span};
use sqlite_items::{Boxed, Items};

/// A comparison operator. `<>` and `!=` are the same one.
#[derive(Clone, Copy, Debug, PartialEq, Eq)]
pub enum Cmp {
    Equal,
    Differs,
    Less,
    AtMost,
    More,
    AtLeast,
}

/// The three area functions.
#[derive(Clone, Copy, Debug, PartialEq, Eq)]
pub enum AreaKind {
    Band,
    Cap,
    Boxed,
}

/// An integer as it is written: its sign and its size. `-0` and `0` are equal for `same`, and print alike.
#[derive(Clone, Copy, Debug, PartialEq, Eq)]
pub struct SignedInt {
    pub minus: bool,
    pub size: Int,
}

/// A non-empty list of integers.
#[derive(Drop)]
pub struct IntList {
    pub first: SignedInt,
    pub rest: Items<SignedInt>,
}

/// Conjunctions joined by OR.
#[cycle(cond)]
#[derive(Drop)]
pub struct Cond {
    pub first: Conj,
    pub rest: Items<Conj>,
}

/// Predicates joined by AND.
#[cycle(cond)]
#[derive(Drop)]
pub struct Conj {
    pub first: Neg,
    pub rest: Items<Neg>,
}

/// A predicate, and whether NOT precedes it.
#[cycle(cond)]
#[derive(Drop)]
pub struct Neg {
    pub not: bool,
    pub pred: Pred,
}

/// The kinds of predicates.
#[cycle(cond)]
#[derive(Drop)]
pub enum Pred {
    /// A condition in brackets.
    Bracket(Boxed<Cond>),
    Compare {
        left: Expr,
        op: Cmp,
        right: Expr,
    },
    Between {
        not: bool,
        value: Expr,
        low: Expr,
        high: Expr,
    },
    /// `value [NOT] IN (..)`
    Among {
        not: bool,
        value: Expr,
        list: IntList,
    },
    IsNull {
        not: bool,
        value: Expr,
    },
    /// An area function. The span is that of its name.
    Area {
        kind: AreaKind,
        span: Span,
        args: IntList,
    },
    /// `CHORD2(left, right) <= n`, or `< n` if it is strict.
    Chord {
        left: Name,
        right: Name,
        strict: bool,
        n: Int,
    },
}
