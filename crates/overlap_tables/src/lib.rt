//! Near regions and overlap: which chunks and subchunks a position is near, and which chunks need it as overlap.
//!
//! Callers see a near region as the test of `sky_rules`, and the chunks that need a position as a list of their numbers
//! (`specs/Overlaps.antt`). Below: `sky_plan` for bounds and locations. No rows and no tables: one position at a time.
#![tactic(auto)]

mod chunks;
pub mod examples;
mod held;
pub mod laws;
mod near;
mod stripes;
mod wedges;

pub use chunks::{near_chunks, push_near_chunks, push_near_others};
pub use held::is_in;
pub use near::{in_near, in_near_sub, is_near};
