//! Reads a source table: its sources in ascending id, or its first fault.
//!
//! Callers see a text as its bytes and the sources as a `SourceTable`; the meaning of a text is defined in
//! `specs/SourceText.antt`. Below: `table_load` reads a table of any form by several threads, `record_text` the fields of a
//! record, `id_order` has the order of ids, `source_rules` defines what records mean, `source_row` stores sources. No
//! objects, no chunks and no files: the text is in memory, and at most 2^29 bytes.
#![tactic(auto)]

mod fields;
mod gathered;
mod order;
mod row;
mod text;

pub use text::load_sources;
