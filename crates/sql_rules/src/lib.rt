//! The SQL language: its grammar, the printed text of a query, and the faults of a text.
//!
//! Callers see a text as its one tree or its first fault (`specs/Trees.antt`). That agrees with the grammar of
//! `specs/Spelling.antt`, `specs/SpellingConds.antt` and `specs/Queries.antt`, and a lemma states it in both
//! directions. Below: `sql_token` for tokens, `sql_tree` for trees. This crate has no code that reads: definitions,
//! worked examples and lemmas.
#![tactic(auto)]

pub mod examples;
pub mod fault;
pub mod laws;
pub mod limits;

pub use fault::SqlFault;
