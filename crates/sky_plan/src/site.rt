//! A site: a chunk's location in the sky, and the parts of the chunk.

ghost use Rattle.std.specs.Prelude.{◌≡◌, ◌+◌, ◌*◌, ◌/◌, ◌%◌, ◌≤◌, ◌<◌, ◌≤ℤ◌, ◌<ℤ◌};
ghost use Rattle.sky_vector.specs.declared.limits.TheConstants.{COORDINATE_MOST};
ghost use Rattle.sky_rules.specs.declared.limits.TheConstants.{HEIGHT_LEAST, OVERLAP_MOST};
ghost use Rattle.sky_rules.specs.Bounds.{chunk_bounds, height_of, row_start, sub_bounds};
ghost use Rattle.sky_plan.specs.Regions.{bounds_shown};
ghost use Rattle.sky_plan.specs.Sites.{HasHeight, IsPlaced};

use crate::region::Region;
use crate::stripe::Stripe;
use std::marker::Model;

/// A chunk's stripe, the first z above it, and the chunk's wedge.
#[derive(Drop)]
pub(crate) struct Site {
    stripe: Stripe,
    end: i64,
    wedge: u32,
}

impl Model for Site {
    ghost use Rattle.sky_rules.specs.Partition.{Site as SiteShown};
    ghost use Rattle.sky_plan.specs.Sites.{IsPlaced};

    ghost Value = { SiteShown };

    ghost view = { λ s. record { stripe = s.stripe; end = s.end; wedge = s.wedge } };

    ghost invariant = { λ s. IsPlaced (record { stripe = s.stripe; end = s.end; wedge = s.wedge }) };
}

impl Site {
    /// Creates the site of a wedge of a stripe.
    pub(crate) fn new(stripe: Stripe, end: i64, wedge: u32) -> Site
        requires { IsPlaced (record { stripe = stripe; end = end; wedge = wedge }) }
        ensures { result ≡ record { stripe = stripe; end = end; wedge = wedge } }
    {
        Site { stripe, end, wedge }
    }

    /// Returns the overlap radius.
    pub(crate) fn radius(&self) -> u32
        ensures value { result ≡ self.now.stripe.overlap }
        ensures most { result ≤ OVERLAP_MOST }
    {
        self.stripe.overlap
    }

    /// Returns the number of subchunks, at most 4,096.
    pub(crate) fn subs(&self) -> u32
        ensures { result ≡ self.now.stripe.rows * self.now.stripe.columns }
    {
        self.stripe.rows * self.stripe.columns
    }

    /// Returns the region of the chunk.
    pub(crate) fn region(&self) -> Region
        ensures { bounds_shown result ≡ chunk_bounds self.now }
    {
        Region::of_wedge(self.stripe.chunks, self.wedge, self.stripe.z_low, self.end)
    }

    /// Returns the region of a subchunk.
    pub(crate) fn sub_region(&self, sub: u32) -> Region
        requires { sub < self.now.stripe.rows * self.now.stripe.columns }
        ensures { bounds_shown result ≡ sub_bounds self.now sub }
    {
        let row = sub / self.stripe.columns;
        let fine = self.wedge * self.stripe.columns + sub % self.stripe.columns;
        let wedges = self.stripe.chunks * self.stripe.columns;
        Region::of_wedge(wedges, fine, self.row_start(row), self.row_start(row + 1))
    }

    /// Returns the subchunk that contains a height and a column.
    pub(crate) fn sub_at(&self, z: i64, column: u32) -> u32
        requires low { self.now.stripe.z_low ≤ℤ z }
        requires high { z <ℤ self.now.end }
        requires column { column < self.now.stripe.columns }
        ensures there { result < self.now.stripe.rows * self.now.stripe.columns }
        ensures row { HasHeight self.now (result / self.now.stripe.columns) z }
        ensures column { result % self.now.stripe.columns ≡ column }
    {
        self.row_of(z) * self.stripe.columns + column
    }

    /// Returns the row of subchunks that contains a height.
    fn row_of(&self, z: i64) -> u32
        requires low { self.now.stripe.z_low ≤ℤ z }
        requires high { z <ℤ self.now.end }
        ensures { HasHeight self.now result z }
    {
        let above = (z - self.stripe.z_low).unsigned_abs();
        let rows = u64::from(self.stripe.rows);
        (((above + 1) * rows - 1) / self.height()) as u32
    }

    /// Returns the height at which a row of subchunks begins; the row after the last begins at the end of the stripe.
    fn row_start(&self, row: u32) -> i64
        requires { row ≤ self.now.stripe.rows }
        ensures { result ≡ row_start self.now row }
    {
        let above = u64::from(row) * self.height() / u64::from(self.stripe.rows);
        self.stripe.z_low + above as i64
    }

    /// Returns the height of the stripe.
    fn height(&self) -> u64
        ensures value { result ≡ height_of self.now }
        ensures some { HEIGHT_LEAST ≤ result }
        ensures most { result ≤ 2 * COORDINATE_MOST + 1 }
    {
        (self.end - self.stripe.z_low).unsigned_abs()
    }
}
