//! The source table in memory: its columns, and the sources in ascending id.
//!
//! Callers see a `SourceSchema` as the names of its extra columns, `SourceLists` as the columns themselves
//! (`specs/SourceColumns.antt`), and `Sources` as a `SourceTable`: the sources in the order of the columns. Below:
//! `source_rules` for what a source and a table of them are, `sky_row` for names and extra columns. No chunks, no text
//! and no SQL: a name is bytes, and a value is an integer or NULL.
#![tactic(auto)]

mod lists;
mod schema;
mod sources;

pub use lists::SourceLists;
pub use schema::SourceSchema;
pub use sources::Sources;
