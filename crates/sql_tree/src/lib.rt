//! The syntax tree of a query.
//!
//! Callers see a tree as plain data: a list for each `Items`, a value for each `Boxed`. Names and the words that a
//! fault may point at keep their span. `same` compares trees without their spans, and takes `-0` for `0` in a list of
//! integers (`specs/Bare.antt`); the program does not call it. Below: `sql_token` for spans, `sqlite_items` for lists
//! that contracts see as lists. There is no grammar and no meaning here.
#![tactic(auto)]

pub mod cond;
pub mod expr;
pub mod name;
pub mod query;
mod same_cond;
mod same_expr;
mod same_query;

pub use cond::{AreaKind, Cmp, Cond, Conj, IntList, Neg, Pred, SignedInt};
pub use expr::{Atom, Expr, Factor, Prod, Signed};
pub use name::{Col, Name};
pub use query::{Item, ItemKind, ItemList, OrderBy, Query, Selection, TableRef};
pub use same_query::same;
pub use sql_token::Int;
