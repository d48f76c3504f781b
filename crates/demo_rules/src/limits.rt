//! The numbers of the demo's generator. Each is defined here once; definitions and code refer to it.

use sky_vector::limits::RADIUS;

/// The multiplier of the generator, that of `minstd_rand` of the C++ standard.
pub const MULTIPLIER: u64 = 48271;

/// The modulus of the generator: 2^31 - 1.
pub const MODULUS: u64 = (1 << 31) - 1;

/// The largest seed. The least is 1.
pub const SEED_MOST: u32 = MODULUS as u32 - 1;

/// The number of draws of an object: for its height, the x and the y of its direction, its flux and its kind.
pub const DRAWS_EACH: u64 = 5;

/// The number of heights that an object may have, in grid units: from the bottom of the sphere to its top.
pub const HEIGHTS: u64 = 2 * RADIUS + 1;

/// The middle of the draws. A component of an object's direction is the difference of its draw and this middle.
pub const LEAN_MIDDLE: u64 = MODULUS / 2;

/// The number of fluxes that an object may have, from 0.
pub const FLUXES: u64 = 100_000;

/// The number of kinds of objects, from 0.
pub const KINDS: u64 = 8;
