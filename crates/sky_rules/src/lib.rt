//! The partition of the sky: stripes, chunks, subchunks and their near regions, and which text spells a partition.
//!
//! Callers see a partition as its list of stripes (`specs/Partition.antt`) and a part of the sky as its bounds
//! (`specs/Bounds.antt`). They see a sky text as the partition or the fault that it spells (`specs/SkyText.antt`).
//! Below: `wedge_rules` for wedges, `text_rules` for lines and numbers. This crate has no algorithms: definitions,
//! worked examples and lemmas.
#![tactic(auto)]

pub mod examples;
pub mod fault;
pub mod laws;
pub mod limits;

pub use fault::SkyFault;
