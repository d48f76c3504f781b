//! Tables whose rows are the records of a text, in any form, and the object table as one form, as definitions for contracts.
//!
//! A `Form` says what a record of a table has to be (`specs/Forms.antt`). The records of a text are a table of the form
//! or have a first fault (`specs/Records.antt`), and its rows are in ascending order of id (`specs/IdOrder.antt`). The
//! object table is one form: callers see a row as an `Obj`, and the rows of a catalogue as a `Catalogue`
//! (`specs/Objects.antt`). Below: `sky_vector` for positions, `text_rules` for numbers. This crate has no algorithms
//! and no chunks: definitions, worked examples and lemmas.
#![tactic(auto)]

pub mod examples;
pub mod fault;
pub mod laws;
pub mod limits;

pub use fault::LoadFault;
