//! The front end of the engine: the queries of a script are planned, run over their chunks and merged, and their ends
//! are written.
//!
//! Callers see a script's plans as `ArePlans` (`specs/Plans.antt`) and its ends as `EndsShow` (`specs/Ends.antt`): an
//! answer is that of the flat table, whose definition does not mention chunks. They see the journal of its session as
//! `IsTraceOf` (`specs/Traces.antt`). Below: `sql_reader` and `sql_bind` for the meaning of a query, `area_analyser`
//! over an `object_index` for its chunks, `chunk_rewriter` for its two parts, `scan_session` for the session over a
//! shared board, `chunk_scan` and `near_join` for a chunk's work, `partial_merge` for the merge, and `query_ends` for the
//! ends and their text. `World` is a store with the index of its ids. The parts of a session are public for `class_session`. No
//! file: texts are slices that the caller holds. Threads come from the caller.
#![tactic(auto)]

pub mod attach;
pub mod chunk_engine;
mod explained;
mod form;
pub mod plan;
pub mod session;
mod transcript;
pub mod understanding;
pub mod world;

pub use attach::{all_attached, board_over, chunk_queries};
pub use chunk_engine::ChunkEngine;
pub use explained::put_explained;
pub use plan::{Plan, chunks_of, explain};
pub use query_ends::End;
pub use session::{SessionContext, run_session, run_traced, within_limits};
pub use transcript::put_transcript;
pub use world::World;
