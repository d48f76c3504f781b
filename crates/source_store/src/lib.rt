//! The sources of a survey by the chunks of their objects.
//!
//! Callers see a `SourceStore` as a partition of the sky, the rows of the object table and a source table
//! (`specs/SourceSurvey.antt`). The sources of a chunk are those whose object is in it; a source whose object is
//! unknown is in no chunk. Below: `source_row` stores the sources, `sky_plan` finds the chunk of each row of the object
//! table, `object_index` finds the row of an object's id, and `chunk_store` has a list for each chunk. No text and no
//! queries: a source is known by its number in the table.
#![tactic(auto)]

mod columns;
mod fill;
mod rows;
pub mod store;

pub use store::SourceStore;
