//! The limits of positions, in grid units, and of numbers. Each is defined here once; definitions and code refer to it.

/// The radius of the sphere.
pub const RADIUS: u64 = 1 << 28;

/// The least length of an admissible position: 16 less than the radius.
pub const LENGTH_LEAST: u64 = RADIUS - 16;

/// The largest length of an admissible position: 16 more than the radius.
pub const LENGTH_MOST: u64 = RADIUS + 16;

/// The largest size of a coordinate of an admissible position: the largest length, along one axis.
pub const COORDINATE_MOST: u64 = LENGTH_MOST;

/// The largest size of a part of any point or direction: twice the radius.
pub const PART_MOST: u64 = 2 * RADIUS;

/// The largest n that a test of squared distances may name, in squared grid units. It is above the squared chord of any
/// two points whose parts are within `PART_MOST`.
pub const CHORD_SQUARED_MOST: u64 = 1 << 62;

/// The largest size of a number that a query computes.
pub const NUMBER_MOST: u128 = 1 << 100;
