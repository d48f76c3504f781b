//! Conditions on a row or on a pair of rows, as they are written, without spans.

use crate::area::AreaTest;
use crate::expr::BoundExpr;
pub use sql_tree::Cmp;
use sqlite_items::{Boxed, Items};

/// A disjunction: conditions joined by OR.
#[cycle(cond)]
#[derive(Drop)]
pub struct BoundAny {
    pub first: BoundAll,
    pub rest: Items<BoundAll>,
}

/// A conjunction: conditions joined by AND.
#[cycle(cond)]
#[derive(Drop)]
pub struct BoundAll {
    pub first: BoundCond,
    pub rest: Items<BoundCond>,
}

/// A predicate, or its negation if `not` is true.
#[cycle(cond)]
#[derive(Drop)]
pub struct BoundCond {
    pub not: bool,
    pub pred: BoundPred,
}

/// A test. Its own `not` is that of NOT BETWEEN, NOT IN and IS NOT NULL. There is no test of a chord: the one chord
/// test of a join is its limit.
#[cycle(cond)]
#[derive(Drop)]
pub enum BoundPred {
    Bracket(Boxed<BoundAny>),
    Compare {
        left: BoundExpr,
        op: Cmp,
        right: BoundExpr,
    },
    Between {
        not: bool,
        value: BoundExpr,
        low: BoundExpr,
        high: BoundExpr,
    },
    Among {
        not: bool,
        value: BoundExpr,
        list: Items<i64>,
    },
    IsNull {
        not: bool,
        value: BoundExpr,
    },
    Area(AreaTest),
}

/// Conditions that all have to hold.
pub type BoundConds = Items<BoundCond>;
