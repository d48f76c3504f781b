//! The bound query: a query whose names are resolved to columns, as the planner, the rewriter and the scans take it.
//!
//! Callers see its trees as plain values and its lists as lists, so that a contract can state that one query is
//! another. Below: `sky_vector` for positions and directions, `sql_tree` for comparisons, the kit's `sqlite_items` for
//! lists and boxes inside a tree. It has no names, spans or texts, and no code but the making of a
//! squared radius and the drops.
#![tactic(auto)]

pub mod area;
pub mod cond;
pub mod drops;
pub mod expr;
pub mod query;
pub mod radius;

pub use area::{AreaTest, Areas, IdTests, Ids};
pub use cond::{BoundAll, BoundAny, BoundCond, BoundConds, BoundPred, Cmp};
pub use drops::{drop_conds, drop_expr};
pub use expr::{BoundAtom, BoundCol, BoundExpr, BoundFactor, BoundProd, BoundSigned, Int};
pub use query::{Bound, BoundItem, BoundItems, BoundKey, BoundOrder, ColList, Shape};
pub use radius::SquaredRadius;
