//! The limits of a sky plan. Each is defined here once; definitions and code refer to it.

use sky_vector::limits::COORDINATE_MOST;

/// The lowest z of a position.
pub const SKY_BOTTOM: i64 = -(COORDINATE_MOST as i64);

/// The first z above all positions.
pub const SKY_END: i64 = COORDINATE_MOST as i64 + 1;

/// The most stripes of a sky.
pub const STRIPES_MOST: usize = 256;

/// The most chunks of a sky.
pub const CHUNKS_MOST: u32 = 1 << 14;

/// The most chunks of a stripe.
pub const STRIPE_CHUNKS_MOST: u32 = 1 << 10;

/// The most columns of subchunks in a chunk, and the most rows.
pub const CUTS_MOST: u32 = 1 << 6;

/// The least height of a stripe, in grid units.
pub const HEIGHT_LEAST: u32 = 64;

/// The largest overlap radius, in grid units: a sixteenth of the radius of the sphere.
pub const OVERLAP_MOST: u32 = 1 << 24;
