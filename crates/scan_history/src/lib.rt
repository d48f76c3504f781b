//! The text of a journal, read and written, and the check of a journal.
//!
//! Callers see a text as its journal or as its first malformed line (`specs/Texts.antt`, `specs/Entries.antt`). What is
//! written is defined in `specs/Printed.antt`. A journal is right if each entry may follow those before it
//! (`specs/Checked.antt`).
//!
//! Below: `scan_rules` for the legal histories, `scan_core` for the replay of one, `sky_text` for lines and numbers,
//! `sky_io` for the sink. There is no board, no thread and no work on chunks here.
#![tactic(auto)]

mod checker;
mod entry;
pub mod examples;
pub mod fault;
pub mod laws;
pub mod limits;
mod parts;
mod reading;
mod tally;
mod writing;

pub use checker::check;
pub use fault::HistoryFault;
pub use reading::read_journal;
pub use tally::Tally;
pub use writing::put_journal;
