//! Expressions: sums of products of factors.

use crate::name::Col;
use sql_token::Int;
use sqlite_items::{Boxed, Items};

/// A sum or difference of products, evaluated from the left.
#[cycle(expr)]
#[derive(Drop)]
pub struct Expr {
    pub first: Prod,
    pub rest: Items<Signed>,
}

/// A later product of a sum, and whether it is subtracted.
#[cycle(expr)]
#[derive(Drop)]
pub struct Signed {
    pub minus: bool,
    pub prod: Prod,
}

/// A product of factors.
#[cycle(expr)]
#[derive(Drop)]
pub struct Prod {
    pub first: Factor,
    pub rest: Items<Factor>,
}

/// An atom, and whether a minus precedes it.
#[cycle(expr)]
#[derive(Drop)]
pub struct Factor {
    pub minus: bool,
    pub atom: Atom,
}

/// The kinds of atoms.
#[cycle(expr)]
#[derive(Drop)]
pub enum Atom {
    /// A whole number.
    Int(Int),
    /// A column.
    Col(Col),
    /// An expression in brackets.
    Bracket(Boxed<Expr>),
}
