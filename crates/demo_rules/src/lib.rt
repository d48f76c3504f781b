//! The demo's input: a catalogue made from a count and a seed, a sky plan and a script.
//!
//! Callers see the catalogue as the rows of `specs/DemoRows.antt`, and the two texts as bytes (`specs/DemoTexts.antt`).
//! Below: `table_rules` for rows, `sky_vector` for points. This crate has no algorithms: definitions, lemmas, and
//! worked examples that the checker evaluates.
#![tactic(auto)]

pub mod examples;
pub mod laws;
pub mod limits;
