//! The key of a group: the values of its key columns, which are stored in the key itself if there are at most four.
//!
//! Callers see a `Key` as the list of its values, in which `None` is NULL. Keys are ordered as `answer_rules` orders
//! them. Below: `answer_rules` for that order. No groups and no rows.
#![tactic(auto)]

pub mod key;
pub mod limits;
mod short_key;

pub use key::Key;
