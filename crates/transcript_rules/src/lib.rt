//! The texts written for a script: refusals, the transcript with a block for each query, and the explain text.
//!
//! Callers see a refusal as the first that applies (`specs/Refusals.antt`), and a transcript as a text over the flat
//! table (`specs/Transcripts.antt`). Below: `sql_rules`, `bind_rules` and `answer_rules` for a query's tree, meaning
//! and answer, `session_rules` for how queries may end. This crate has no algorithms: a type that more than one crate
//! names, definitions, lemmas, and short examples of single lines. Whole queries are worked rows of the program.
#![tactic(auto)]

pub mod examples;
pub mod laws;
pub mod refusal;

pub use refusal::Refusal;
