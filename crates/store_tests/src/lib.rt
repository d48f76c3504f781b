//! Tests of a table, of its lists of subchunks and of its sources by public calls alone, of what no output of the program
//! shows.
//!
//! Callers: none. No crate depends on this one, so that a crate of the table is proved once, and its tests over its
//! contracts. Below: `sky_row` (`rows`), `chunk_store` (`subchunks`), `source_load` (`sources`), and `source_store` over
//! `chunk_store` (`source_chunks`).
#![tactic(auto)]

#[cfg(test)]
mod rows;
#[cfg(test)]
mod source_chunks;
#[cfg(test)]
mod sources;
#[cfg(test)]
mod subchunks;
