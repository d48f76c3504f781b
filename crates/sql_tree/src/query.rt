//! A whole query.

use crate::cond::Cond;
use crate::expr::Expr;
use crate::name::{Col, Name};
use sql_token::{Int, Span};
use sqlite_items::Items;

/// A written query.
pub struct Query {
    pub items: Selection,
    pub first: TableRef,
    /// The second table of a join.
    pub second: Option<TableRef>,
    pub cond: Option<Cond>,
    /// The columns after GROUP BY, at most four. There are none without GROUP BY.
    pub group: Items<Col>,
    pub order: Option<OrderBy>,
    pub limit: Option<Int>,
}

// A derived drop would be proved again in each crate that drops one.
impl Drop for Query {
    fn drop(self) {
        let Query {
            items,
            first,
            second,
            cond,
            group,
            order,
            limit,
        } = self;
    }
}

/// The select list, between SELECT and FROM.
#[derive(Drop)]
pub enum Selection {
    /// `*`, and its span.
    Star { span: Span },
    List(ItemList),
}

/// A non-empty list of items.
#[derive(Drop)]
pub struct ItemList {
    pub first: Item,
    pub rest: Items<Item>,
}

/// An item, and the alias after AS.
#[derive(Drop)]
pub struct Item {
    pub what: ItemKind,
    pub alias: Option<Name>,
}

/// The kinds of items.
#[derive(Drop)]
pub enum ItemKind {
    Plain(Expr),
    /// `COUNT(*)`
    Count,
    CountOf(Expr),
    Sum(Expr),
    Min(Expr),
    Max(Expr),
    Avg(Expr),
}

/// A table, and its alias.
#[derive(Drop)]
pub struct TableRef {
    pub name: Name,
    pub alias: Option<Name>,
}

/// The order key, and whether the order is descending.
#[derive(Drop)]
pub struct OrderBy {
    pub key: Col,
    pub down: bool,
}
