//! The texts that the program writes: the load report, the blocks of a transcript, and any text with a block for each
//! query.
//!
//! Callers see what a call writes as its text, appended to the sink. `specs/Report.antt` defines the text of the
//! report, and `transcript_rules` the others. A text with one block for each query is written by `put_blocks`, whatever
//! its blocks are. Below: `explain_text` for the blocks of an explain text, `column_text` for columns,
//! `answer_table` for the table of an answer, `line_buffer` for the line of a row, `chunk_store` for the rows of each
//! chunk, `sky_text` for numbers, `sky_io` for the sink. This crate computes nothing but lengths and positions, and
//! allocates nothing.
#![tactic(auto)]

pub mod blocks;
mod ended;
pub mod examples;
mod refused;
mod report;
mod row_line;
pub mod shown;
mod values;

pub use blocks::{Blocks, put_blocks};
pub use ended::{put_cancelled, put_spent};
pub use explain_text::{Explained, put_explain};
pub use refused::put_refusal;
pub use report::put_report;
pub use shown::{Shown, put_table};
