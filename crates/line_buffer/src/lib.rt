//! A line of text that is written from its end to its start, in a buffer of fixed size.
//!
//! The digits of a number are found from the last to the first. So a line that is written backward has each digit
//! written once, in its place, and is one piece for a sink. Callers see a `LineBuffer` as its bytes. Below: `itoa` for
//! digits. No sink and no queries: of values, only NULL and numbers of 64 bits. Allocates nothing.
#![tactic(auto)]

pub mod limits;
pub mod line;

pub use line::LineBuffer;
