//! The records of whole lines do not depend on what follows them, if the lines have no double quote.
//!
//! So a text can be read in parts, each cut after a line feed. Callers see two theorems, `specs/Lines.antt`. Below: the
//! kit's `csv`, whose records these are. No table and no reader: `table_load` cuts the text.
#![tactic(auto)]

pub mod laws;
