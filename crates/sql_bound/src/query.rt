//! A bound query.

use crate::area::{Areas, IdTests};
use crate::cond::BoundConds;
use crate::drops::drop_expr;
use crate::expr::{BoundCol, BoundExpr};
use sql_tree::Int;
use sqlite_items::Items;

/// Columns, in their order.
pub type ColList = Items<BoundCol>;

/// The source of a query: rows, pairs of rows, or groups.
#[derive(Drop)]
pub enum Shape {
    /// The rows of the table.
    Rows,
    /// The ordered pairs of rows whose squared chord is at most the limit. The limit is -1 for `chord2 < 0`, which no pair meets.
    Pairs { limit: i64 },
    /// The groups of rows with equal keys. With no keys there is one group.
    Groups { keys: ColList },
}

/// An item of a query: an expression of a row, a pair or a group's keys, or an aggregate of a group. `Count` counts the
/// rows, and the other aggregates ignore rows for which their expression is NULL.
pub enum BoundItem {
    Plain(BoundExpr),
    Count,
    CountOf(BoundExpr),
    Sum(BoundExpr),
    Min(BoundExpr),
    Max(BoundExpr),
    Avg(BoundExpr),
}

// A derived drop would be proved again in each crate that drops one.
impl Drop for BoundItem {
    fn drop(self) {
        match self {
            BoundItem::Count => {}
            BoundItem::Plain(expr) => drop_expr(expr),
            BoundItem::CountOf(expr) => drop_expr(expr),
            BoundItem::Sum(expr) => drop_expr(expr),
            BoundItem::Min(expr) => drop_expr(expr),
            BoundItem::Max(expr) => drop_expr(expr),
            BoundItem::Avg(expr) => drop_expr(expr),
        }
    }
}

/// The items of a query, in their order.
pub type BoundItems = Items<BoundItem>;

/// The key of an order: the item at a position, from 0, or a column.
#[derive(Clone, Copy, Debug, PartialEq, Eq)]
pub enum BoundKey {
    Item(usize),
    Column(BoundCol),
}

/// An order: its key, and whether it is descending.
#[derive(Clone, Copy, Debug, PartialEq, Eq)]
pub struct BoundOrder {
    pub key: BoundKey,
    pub down: bool,
}

/// A bound query. `conds` are the top-level conjuncts of WHERE, except a join's chord test, which is the limit of its
/// shape. The area tests and the id tests are among them, and again in `areas` and `ids`.
pub struct Bound {
    pub shape: Shape,
    pub items: BoundItems,
    pub conds: BoundConds,
    pub areas: Areas,
    pub ids: IdTests,
    pub order: Option<BoundOrder>,
    pub limit: Option<Int>,
}

// A derived drop would be proved again in each crate that drops one.
impl Drop for Bound {
    fn drop(self) {
        let Bound {
            shape,
            items,
            conds,
            areas,
            ids,
            order,
            limit,
        } = self;
    }
}
