//! Positions in the sky, directions of its plane and the numbers of queries, as integers.
//!
//! Callers see a `Pos` as its `Point`, a `Dir` by its two parts and a `Num` as a whole number (`specs/`). Below:
//! nothing. There are no angles and no floating point: distances are compared by their squares. The integer square root
//! is for the positions of the demo.
#![tactic(auto)]

pub mod direction;
pub mod examples;
mod grid;
pub mod laws;
pub mod length;
pub mod limits;
pub mod number;
pub mod position;
pub mod root;

pub use direction::{Dir, cross, turn, within};
pub use length::{chord2, length_ok};
pub use number::Num;
pub use position::Pos;
pub use root::isqrt;
