//! The chunks of a partition that hold rows of a table, and rows by their row numbers.
//!
//! Callers see the filled chunks as an ascending list (`specs/Filled.antt`). They see the rows that pass a test as the
//! list of their row numbers, from 0 (`specs/Places.antt`). Below: `sky_rules` for chunks, `table_rules` for rows. This
//! crate has no algorithms: definitions and lemmas.
#![tactic(auto)]

pub mod laws;
