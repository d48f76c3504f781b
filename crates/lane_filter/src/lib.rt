//! Tests over a whole column: each clears a mask, a truth value for each row, at the rows whose scalar test is false.
//!
//! Callers see a mask as a list of truth values; each contract states which of them are left (`specs/Tests.antt`). A
//! loop here goes over equal slices with no branch and no call that is not inlined, since the compiler turns such loops
//! into vector code. It handles one row an iteration, and for a comparison or a range sixteen (`wide`, and `narrow` for
//! 32 bits). The selection vector of the rows that are left is built without a branch too. Below: `sky_vector` for
//! positions and chords, `sql_tree` and `value_rules` for the meaning of a comparison.
#![tactic(auto)]

mod compare;
mod narrow;
mod near;
mod pick;
mod range;
mod wide;

pub use compare::{keep, keep_narrow};
pub use near::keep_near;
pub use pick::{keep_present, picked};
pub use range::{keep_between, keep_between_narrow};
pub use sql_tree::Cmp;
