//! Reads a table of any form: its header, then record by record, then the rows in ascending id, or its first fault.
//!
//! A form of table is a `Gathering`: its columns, and its rows so far in the order of the text. A `RowSorter` puts
//! these in order. Several threads read a text in parts if they can (`parts`), and else one reads it (`table`). Callers
//! see the table that the definitions of `table_rules` make of the records of the text. Below: `record_text` reads
//! records, and has the lemmas about rows that are read one by one; `record_parts` has which parts of a text can be
//! read apart. No rows are stored here, and no chunks.
#![tactic(auto)]

mod cut;
mod gathering;
mod header;
mod parts;
mod rows;
mod table;

pub use gathering::Gathering;
pub use parts::load_table;
pub use table::RowSorter;
