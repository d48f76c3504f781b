//! The source table, and the table that the records of a text spell, as definitions for contracts.
//!
//! A source is a measurement of an object. Callers see one as a `Source`, and the sources of a text as a `SourceTable`
//! (`specs/Sources.antt`). They see its text as its records, which are a table or have a first fault: the definitions are
//! those of `table_rules`, for the form of the source table (`specs/SourceRecords.antt`). The sources of a chunk are
//! those whose object is in it (`specs/SourcePlaces.antt`). Below: `table_rules` for the object table, `sky_rules` for
//! chunks. No algorithms: definitions, worked examples and lemmas.
#![tactic(auto)]

pub mod examples;
pub mod laws;
pub mod limits;
