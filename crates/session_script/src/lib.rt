//! Scripts: each line is a query, a wait or a cancel.
//!
//! Callers see a script as its text and its list of steps (`specs/Scripts.antt`). Below: `sky_text` for lines and
//! numbers, `sql_token` for spans. The text of a query is not inspected here: a line that is no other step is a query.
#![tactic(auto)]

mod command;
pub mod examples;
mod fault;
pub mod laws;
pub mod limits;
mod line_step;
mod script;
mod step;

pub use fault::ScriptFault;
pub use script::Script;
pub use step::Step;
