//! Expressions over the columns of a row or of a pair of rows: sums of products, as they are written, without spans.

pub use sql_tree::Int;
use sqlite_items::{Boxed, Items};

/// A column of the first row, or of the second row of a pair. Columns count from 0; the first four are objectId, x, y
/// and z.
#[derive(Clone, Copy, Debug, PartialEq, Eq)]
pub struct BoundCol {
    pub second: bool,
    pub col: u32,
}

/// A sum: a product, and the signed products that follow it.
#[cycle(expr)]
#[derive(Drop)]
pub struct BoundExpr {
    pub first: BoundProd,
    pub rest: Items<BoundSigned>,
}

/// A product that is added, or subtracted if `minus` is true.
#[cycle(expr)]
#[derive(Drop)]
pub struct BoundSigned {
    pub minus: bool,
    pub prod: BoundProd,
}

/// A product: a factor, and the factors that follow it.
#[cycle(expr)]
#[derive(Drop)]
pub struct BoundProd {
    pub first: BoundFactor,
    pub rest: Items<BoundFactor>,
}

/// An atom, with or without a minus before it.
#[cycle(expr)]
#[derive(Drop)]
pub struct BoundFactor {
    pub minus: bool,
    pub atom: BoundAtom,
}

/// An integer, a column, or an expression in brackets.
#[cycle(expr)]
#[derive(Drop)]
pub enum BoundAtom {
    Int(Int),
    Col(BoundCol),
    Bracket(Boxed<BoundExpr>),
}
