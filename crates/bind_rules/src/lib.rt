//! Name resolution: the bound query of a written query over a schema, or its first fault.
//!
//! Callers see the conjuncts of WHERE (`specs/Conjuncts.antt`), and the six checks and their order
//! (`specs/Checks.antt`), each of which searches positions in the order of the text. The bound query
//! (`specs/Binding.antt`) is true of a row or a pair exactly if the written WHERE is (`specs/BoundWhere.antt`).
//!
//! Below: `sql_token` for spans, `sql_tree` for the written query, `sql_rules` for its text, `sql_bound` for the bound
//! query and `value_rules` for well-formed ones; `table_rules` for the columns and their bounds, and `sky_vector` for
//! positions and directions. This crate has no algorithms: the faults, definitions, worked examples and lemmas.
#![tactic(auto)]

pub mod examples;
pub mod fault;
pub mod first_faults;
pub mod laws;

pub use fault::BindFault;
