//! The transcript of a script over a child table, and which ends fit it.
//!
//! Callers see the transcript as a text over two flat tables: the objects and their sources
//! (`specs/ChildTranscripts.antt`). Its blocks, its refusals and its ends are those of any transcript, as
//! `transcript_rules` and `session_rules` define them. What a query is bound to (`child_bind_rules`) and its answer
//! (`child_rules`) are its own. This crate has no algorithms: definitions, worked examples and lemmas.
#![tactic(auto)]

pub mod examples;
pub mod laws;
