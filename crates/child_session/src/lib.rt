//! The session of a script over a child table: its queries are planned, run over their chunks and merged, and their ends
//! are written.
//!
//! Callers see a script's plans as `AreChildPlans` (`specs/ChildPlans.antt`) and its ends as `ChildEndsShow`
//! (`specs/ChildEnds.antt`): an answer is that over the two flat tables, whose definition does not mention chunks.
//! Below: `sql_reader` and `child_bind` for the meaning of a query, `czar` for its chunks, `scan_session` for the
//! session over a shared board, `child_scan` for a chunk's work, `child_piece` for the merge, and `query_ends` for the
//! ends and their text. The board, the workers and the script's waits and cancels are those of every session: no loop
//! of a session and no thread is here.
#![tactic(auto)]

mod attach;
mod engine;
mod form;
pub mod plan;
pub mod session;
mod transcript;
pub mod world;

pub use attach::board_for;
pub use plan::{ChildPlan, child_plans};
pub use query_ends::End as ChildEnd;
pub use session::{ChildContext, drive_children, run_children};
pub use transcript::put_child_transcript;
pub use world::ChildWorld;
