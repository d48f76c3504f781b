//! Columns as text, by their names and by their positions, and the small parts of lines that all texts have.
//!
//! Callers see what a call writes as its text, appended to the sink. `transcript_rules` defines these texts. Below:
//! `sky_row` for the names of columns, `bind_checks` for the qualifier of a table, `sky_text` for numbers, `sky_io` for
//! the sink. Allocates nothing.
#![tactic(auto)]

pub mod column_places;
pub mod columns;
pub mod pieces;
