//! The wedges of a stripe: which points of the plane each wedge holds, and that each point is in exactly one.
//!
//! Callers see a wedge by its number and the count of wedges (`specs/Wedge.antt`), and its two meridian directions as
//! grid points on a square (`specs/Heading.antt`). Below: `sky_vector` for plane products. There are no stripes,
//! heights or chunk numbers here: only x and y count. The crate has two algorithms, the direction of a wedge and the
//! division that finds a position's wedge.
#![tactic(auto)]

pub mod bearing;
pub mod direction;
pub mod examples;
pub mod laws;

pub use bearing::wedge_of;
pub use direction::direction_of;
