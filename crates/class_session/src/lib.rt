//! The session of a script over the boards of two classes of queries.
//!
//! Queries of at most 16 chunks run on a board of their own, which a take asks first, so they wait for no chunk of a
//! long query but those that a worker is on. Callers see the ends as those of a session over one board, and each board's
//! journal as that of the queries of its class (`specs/ClassPlans.antt`). Below: `czar` for plans and ends, `scan_classes`
//! for the two boards. Both crates do the work: no loop of a session and no thread is here.
#![tactic(auto)]

mod boards;
pub mod session;

pub use session::{drive_classes, run_classes};
