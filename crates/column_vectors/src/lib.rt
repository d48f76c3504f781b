//! Column vectors: a number or a truth value for each selected row of a block, and what is computed of them.
//!
//! Callers see two lists, with one entry for each selected row: of values (`ValueList`; `None` is NULL), or of truth
//! values (`TruthList`; `None` is unknown). A list of values also returns its count of values and their sum
//! (`aggregate`), and the least and the greatest (`least_greatest`). The vectors are reused (`Scratch`).
//!
//! A vector of numbers is a `Lane`: a number for each row, 0 in place of a NULL, and a validity flag. Numbers stay in 64
//! bits as long as the bounds of the columns imply that they fit, and are in 128 from there on. A vector of truth values
//! is two flags for each row: true, and false. The values of an extra column without a NULL are not copied into a column
//! vector: they are read in the block when they are asked for (`PickedColumn`), unless a list is asked for.
//!
//! Below: `column_block` for the columns, `value_rules` for values. No trees: `column_eval` walks them.
#![tactic(auto)]

mod aggregate;
pub mod flags;
pub mod join;
pub mod lane;
pub mod leaf;
mod least_greatest;
pub mod mask;
pub mod numbers;
pub mod picked_column;
pub mod scratch;
pub mod truth_list;
pub mod value_list;

pub use scratch::{Pool, Scratch};
pub use truth_list::TruthList;
pub use value_list::ValueList;
