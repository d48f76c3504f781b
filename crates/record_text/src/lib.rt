//! Reads the records of a text: the fields that tables of all forms share, and lemmas about the rows read so far.
//!
//! Callers see a reader as the records that it has yet to return (`specs/Standing.antt`), and a record as its fields. The reader
//! goes line by line if a text has no double quote, no carriage return and no byte order mark (`lines`). Callers see rows that
//! were read as those of the records before the first fault other than a repeated id (`specs/Judged.antt`), whatever the form
//! of their table. Below: the kit's `csv` splits any other text into records, and its contract says what the records of any text
//! are; `memchr` finds commas and line feeds, `sky_text` reads numbers, `table_rules` defines what records mean. No rows are
//! stored here.
#![tactic(auto)]

mod fields;
mod lines;
mod number;
mod reading;
mod record;

pub use fields::{field_in, number_within, read_cells, read_id};
pub use reading::{RecordReader, read_next, reader_of};
pub use record::Record;
