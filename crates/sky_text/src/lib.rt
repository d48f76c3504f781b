//! Numbers, lines and words of a text: read from bytes, and numbers written to a sink.
//!
//! Callers see what is read by the definitions of `text_rules`, and what is written as bytes appended to the sink.
//! Below: `text_rules` for what a number is, `sky_io` for the sink. There are no files, and nothing is allocated: a
//! text is a slice that the caller holds.
#![tactic(auto)]

mod decimal4;
pub mod lines;
mod number;
mod pieces;
mod put;

pub use decimal4::put_decimal4;
pub use lines::{Line, Lines, is_note};
pub use number::{read_int, read_natural, read_whole};
pub use pieces::Pieces;
pub use put::{put_count, put_int, put_natural};
