//! A stripe of the sky: the height at which it begins, and its division.

ghost use Rattle.std.specs.Prelude.{◌≡◌};
ghost use Rattle.sky_rules.specs.Partition.{greatest_overlap};

use std::marker::Model;

/// The positions from a height up to the next stripe, divided into chunks by direction, and each chunk into subchunks.
#[derive(Clone, Copy, Debug)]
pub struct Stripe {
    pub(crate) z_low: i64,
    pub(crate) chunks: u32,
    pub(crate) columns: u32,
    pub(crate) rows: u32,
    pub(crate) overlap: u32,
}

impl Model for Stripe {
    ghost use Rattle.sky_rules.specs.Partition.{Stripe as StripeShown};

    ghost Value = { StripeShown };

    ghost view = { λ s. record { z_low = s.z_low; chunks = s.chunks; columns = s.columns; rows = s.rows; overlap = s.overlap } };

    ghost inverse = { λ s. record { z_low = s.z_low; chunks = s.chunks; columns = s.columns; rows = s.rows; overlap = s.overlap } };
}

impl Stripe {
    /// Creates the stripe that begins at a height, with a number of chunks, and numbers of columns and rows of
    /// subchunks in each. The overlap radius is in grid units. Does not allocate.
    pub fn new(z_low: i64, chunks: u32, columns: u32, rows: u32, overlap: u32) -> Stripe
        ensures { result ≡ record {
          z_low = z_low;
          chunks = chunks;
          columns = columns;
          rows = rows;
          overlap = overlap;
        } }
    {
        Stripe {
            z_low,
            chunks,
            columns,
            rows,
            overlap,
        }
    }

    /// Returns the number of chunks. Does not allocate.
    pub fn chunks(&self) -> u32
        ensures { result ≡ self.now.chunks }
    {
        self.chunks
    }

    /// Returns the overlap radius, in grid units. Does not allocate.
    pub fn overlap(&self) -> u32
        ensures { result ≡ self.now.overlap }
    {
        self.overlap
    }
}

/// Returns the greatest overlap radius of these stripes.
pub(crate) fn greatest_of(stripes: &[Stripe]) -> u32
    ensures { result ≡ greatest_overlap (record { stripes = stripes.now }) }
{
    stripes
        .iter()
        .map(|stripe| stripe.overlap)
        .max()
        .unwrap_or(0)
}
