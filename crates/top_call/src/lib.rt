//! The top call: executes the command that the arguments give, over a shelf of texts and a sink for the output.
//!
//! `qserv` is generic over both. Its contract (`specs/Explained.antt`) defines what each outcome means, and with
//! `specs/Completes.antt` which outcome must occur. `status` and `put_outcome` report an outcome to the caller of the
//! program. Below: `sky_plan`, `catalogue_load` and `session_script` read the texts, and `sky_generate` creates those
//! of the demo. `source_load` and `source_store` have the sources. `czar` runs the queries and writes their results,
//! `class_session` runs them on two boards, `child_session` runs those over objects and sources, `answer_text` writes
//! the load report, `scan_history` checks a journal, and `sky_io` is the outside. No reading of a text, no SQL, no sky
//! and no thread here: the order of the work, the outcomes, and how they are reported.
#![tactic(auto)]

mod demo;
mod ends;
mod fault_lines;
mod inputs;
mod journal_check;
pub mod limits;
mod outcome;
mod outcome_line;
mod script_lines;
mod sources;
mod task;
mod threads;
mod top;
mod trace;
mod words;
mod work;

pub use inputs::fetch_survey;
pub use outcome::{Outcome, Which, status};
pub use outcome_line::put_outcome;
pub use script_lines::put_script_fault;
pub use top::qserv;
