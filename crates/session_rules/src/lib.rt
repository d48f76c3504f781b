//! The ends that a session may give to the queries of a script.
//!
//! Callers see the ends as a list, and a query as the facts about it that hold in every session (`specs/Ends.antt`).
//! Below: `session_script` for the steps of a script. No session is run here: definitions, their lemmas, and worked
//! examples that the checker evaluates.
#![tactic(auto)]

pub mod end;
pub mod examples;
pub mod laws;
pub mod limits;

pub use end::{EndKind, Ends};
