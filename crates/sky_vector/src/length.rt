//! Squared lengths, in squared grid units: they are compared as squares, and no root is taken.

ghost use Rattle.std.specs.Prelude.{◌≡◌, ◌<◌, pos};
ghost use Rattle.sky_vector.specs.Points.{chord_squared, is_admissible, square_of};
ghost use Rattle.sky_vector.specs.Pos.{point};
ghost use Rattle.sky_vector.specs.declared.limits.TheConstants.{CHORD_SQUARED_MOST};

use crate::grid::{gap_squared, part_squared};
use crate::limits::{LENGTH_LEAST, LENGTH_MOST};
use crate::position::Pos;

/// The least and the largest squared length of an admissible position: those of 2^28 - 16 and 2^28 + 16.
const LEAST: u64 = LENGTH_LEAST * LENGTH_LEAST;

const MOST: u64 = LENGTH_MOST * LENGTH_MOST;

/// Whether the position is admissible: its length is from 2^28 - 16 to 2^28 + 16. Does not allocate.
pub fn length_ok(p: &Pos) -> bool
    ensures { result ≡ is_admissible (point p.now) }
{
    let length = squared_length(p);
    LEAST <= length && length <= MOST
}

/// The squared length of a position.
fn squared_length(p: &Pos) -> u64
    ensures { pos result ≡ square_of (point p.now) }
{
    part_squared(p.x) + part_squared(p.y) + part_squared(p.z)
}

/// The squared chord between two positions, in squared grid units, below 2^62. Does not allocate.
pub fn chord2(a: &Pos, b: &Pos) -> u64
    ensures value { pos result ≡ chord_squared (point a.now) (point b.now) }
    ensures below { result < CHORD_SQUARED_MOST }
{
    gap_squared(a.x, b.x) + gap_squared(a.y, b.y) + gap_squared(a.z, b.z)
}
