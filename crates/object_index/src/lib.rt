//! The index from an object's id to its chunk and its row.
//!
//! Callers see an `Index` as the partition and the rows that it indexes (`specs/Indexes.antt`). It is sparse: the rows
//! are in ascending id, so it stores an entry for each granule of them instead of one for each row. Below: `sky_row`
//! stores the rows, `sky_plan` finds the chunk of a position, `indexmap` stores the entries.
#![tactic(auto)]

pub mod granules;
pub mod index;
pub mod place;

pub use index::Index;
pub use place::Place;
