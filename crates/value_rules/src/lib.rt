//! The semantics of the expressions and conditions of a bound query, on a row and on a pair of rows.
//!
//! Callers see a value as a whole number or NULL (`specs/Values.antt`), and a truth as true, false or unknown
//! (`specs/Truth.antt`). Both are defined by the term or the formula of a tree (`specs/Terms.antt`,
//! `specs/Formulas.antt`). Below: `sql_bound` for the trees, `table_rules` for rows. This crate has no code:
//! definitions, worked examples and lemmas.
#![tactic(auto)]

pub mod column_laws;
pub mod examples;
pub mod laws;
