//! The evaluator: the value of a bound expression on a row, a pair of rows or a group's key, and the truth value of a
//! condition.
//!
//! Callers see a value as an integer or NULL, and a truth value as true, false or unknown. `value_rules` defines them
//! for the row, for the two rows of a pair (`specs/Picks.antt`), or for the columns of a key. Below: `sky_row` for
//! rows, `sql_bound` for the trees, `value_rules` for their meaning. Nothing here allocates memory or fails: what is
//! evaluated is well-formed, so each column is there and each number fits. `literal` recognises an expression that is a
//! number. Not in it: totals and orders.
#![tactic(auto)]

mod area;
mod column;
mod compare;
mod cond;
mod expr;
mod key;
mod literal;
mod number;
mod pred;
mod three;

pub use area::area_holds;
pub use cond::{holds, meets, truth};
pub use expr::value;
pub use key::value_on_key;
pub use literal::{factor_of, mirrored, number_of};
