//! The shared scan in two classes: a take asks the board of short queries before that of long ones.
//!
//! Queries of at most 16 chunks run on a board of their own, the short board, and all others on the long board. A take
//! asks the short board first. So a short query waits, in Takes of the short board, for chunks of short queries alone.
//! In time it also waits for each worker to finish the long chunk that it is on. This division is the project's own.
//! Contracts see a `Classes` as the identities of the locks of its boards, and a `Pair` as its participant at each
//! board. They see each call by the results of the boards, each on its own journal (`specs/Pairs.antt`,
//! `specs/ClassTakes.antt`). A `Classes` is a `Tasks` for workers, and a `ClassBoards`, which also has the class of
//! each query by its number, is a `Boards` for a czar. Below: `scan_board` for the boards, `scan_worker` for a worker's
//! loop. Not in it: how long a long query waits.
#![tactic(auto)]

pub mod class;
pub mod class_boards;
pub mod class_tasks;
pub mod classes;
pub mod lemmas;
pub mod pair;
pub mod workers;

pub use class::{Class, ClassTake, SHORT_MOST};
pub use class_boards::ClassBoards;
pub use classes::Classes;
pub use pair::Pair;
pub use workers::class_worker;
