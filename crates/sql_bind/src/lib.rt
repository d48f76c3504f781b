//! The binder: a written query over a schema becomes its bound query, or its first fault.
//!
//! Callers see one call, `bind`, whose result is the meaning of a query as `bind_rules` defines it (`bound_of`). Its parts
//! are written over what a name refers to (`Columns` of `bind_checks`), of which the object table (`Scope`) is one case;
//! those that a binder over other tables needs are public: `bound_with`, `listed_items`, `is_lone_column`. Below:
//! `sql_tree` for the written query, `sky_row` for the schema, `sql_bound` for the bound query, `bind_rules` for its
//! meaning, `bind_checks` for the six checks, `sky_io` for out of memory. No text, no rows and no plan: the bound query
//! is built only if no check fails.
#![tactic(auto)]

mod areas;
mod binder;
mod chord_limit;
mod conds;
mod conjuncts;
mod exprs;
mod ids;
mod ints;
mod items;
mod order;
mod preds;
mod query;
mod scope;
mod shape;

pub use bind_rules::BindFault;
pub use binder::bind;
pub use ids::is_lone_column;
pub use items::listed_items;
pub use query::bound_with;
pub use sql_bound::{
    AreaTest, Areas, Bound, BoundAll, BoundAny, BoundAtom, BoundCol, BoundCond, BoundConds,
    BoundExpr, BoundFactor, BoundItem, BoundItems, BoundKey, BoundOrder, BoundPred, BoundProd,
    BoundSigned, Cmp, ColList, IdTests, Ids, Int, Shape, SquaredRadius,
};
