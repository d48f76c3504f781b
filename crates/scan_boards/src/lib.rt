//! One board of the shared scan or several, as workers and a czar can use them.
//!
//! A worker takes tasks from a `Tasks`, and a czar can attach and collect at a `Boards`, whichever boards there are.
//! Contracts see the participant at each board, and each call by the results of these boards (`specs/Tasks.antt`). A
//! `SharedBoard` is the case of one. Below: `scan_board` for the shared board. Not in it: work on chunks, and which
//! queries are attached.
#![tactic(auto)]

pub mod boards;
pub mod tasks;

pub use boards::Boards;
pub use tasks::{Taken, Tasks};
