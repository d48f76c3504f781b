//! The ends of a script's queries, whatever the form in which the queries are run.
//!
//! Three steps of a session are here: what is attached to its board for each query (`attach`), the end of the query by
//! how it ended there (`finish`), and the text of its end (`end_text`).
//!
//! Callers see a plan as `QueryPlan`, and an end as `End`. A form of queries implements `QueryForm`: what it attaches, and
//! how it answers from the piece over all chunks (`specs/Ended.antt`). `specs/EndTexts.antt` defines the text of an end.
//! `proofs/ScriptEnds.antt` has what holds of the ends of every session, by what a form ensures (`Answering`). Below:
//! `scan_session` for the ends at the board, `session_rules` and `transcript_rules` for their meaning, `answer_text` for
//! their text. No thread is here.
#![tactic(auto)]

mod attach;
pub mod end;
pub mod end_text;
mod finish;
pub mod form;
pub mod plan;

pub use attach::all_attached;
pub use end::End;
pub use end_text::put_ends;
pub use finish::all_query_ends;
pub use form::QueryForm;
pub use plan::QueryPlan;
