//! The plan of the sky, and the chunk and subchunk of a position in it.

ghost use Rattle.std.specs.Prelude.{◌≡◌, ◌+◌, ◌≤◌, ◌<◌, ◌≤ℤ◌, ◌<ℤ◌, IfOk, IsTrue, length, take};
ghost use Rattle.sky_vector.specs.Points.{IsAdmissible};
ghost use Rattle.sky_vector.specs.Pos.{point};
ghost use Rattle.sky_rules.specs.Laws.{IsOnlyPlace};
ghost use Rattle.sky_rules.specs.Limits.{IsSky, IsStripe};
ghost use Rattle.sky_rules.specs.Partition.{chunk_count, chunks_in, greatest_overlap, least_overlap, overlap_at, site_of, sky_bottom, sky_end, sub_count};
ghost use Rattle.sky_rules.specs.declared.limits.TheConstants.{OVERLAP_MOST};
ghost use Rattle.sky_rules.specs.Bounds.{in_chunk, sub_bounds_of, bounds_of};
ghost use Rattle.sky_plan.specs.Plans.{CoversOverlaps, HasChunk, stripe_numbered};
ghost use Rattle.sky_plan.specs.Places.{IsOnlyChunk, SubHolds};
ghost use Rattle.sky_plan.specs.Regions.{bounds_shown};
ghost use Rattle.sky_plan.specs.Sites.{SpansHeight, end_numbered, site_numbered};

use crate::heights::stripes_below;
use crate::region::Region;
use crate::site::Site;
use crate::stripe::{Stripe, greatest_of};
use crate::sub_place::SubPlace;
use sky_io::Memory;
use sky_rules::limits::SKY_END;
use sky_vector::Pos;
use std::alloc::Global;
use std::marker::Model;
use wedge_rules::wedge_of;

/// A partition of the sky within the limits: at least 1 stripe, lowest first.
#[derive(Drop)]
pub struct SkyPlan {
    stripes: Vec<Stripe>,
    /// The number of each stripe's first chunk.
    firsts: Vec<u32>,
    count: u32,
    /// The greatest overlap radius of all stripes.
    greatest: u32,
}

impl Model for SkyPlan {
    ghost use Rattle.sky_rules.specs.Partition.{Partition};
    ghost use Rattle.sky_plan.specs.Plans.{IsPlan};

    ghost Value = { Partition };

    ghost view = { λ p. record { stripes = p.stripes.items } };

    ghost invariant = { λ p. IsPlan (record { stripes = p.stripes.items }) p.firsts.items p.count p.greatest };
}

impl SkyPlan {
    /// Creates the plan of these stripes, lowest first. Allocates memory for one number per stripe. If that fails, the
    /// stripes are dropped.
    pub fn of(alloc: Global, stripes: Vec<Stripe>) -> Result<SkyPlan, Memory>
        requires { IsSky (record { stripes = stripes.items }) }
        ensures { IfOk result (λ plan. plan ≡ record { stripes = stripes.items }) }
    {
        let mut firsts = Vec::new(alloc);
        let mut count = 0;
        for stripe in stripes.as_slice() {
            if firsts.push(count).is_err() {
                return Err(Memory);
            }
            count += stripe.chunks;
        }
        let greatest = greatest_of(stripes.as_slice());
        Ok(SkyPlan {
            stripes,
            firsts,
            count,
            greatest,
        })
    }

    /// Returns the overlap radius of a chunk, in grid units. Does not allocate.
    pub fn radius_of(&self, chunk: u32) -> u32
        requires { chunk < chunk_count self.now }
        ensures value { result ≡ overlap_at self.now chunk }
        ensures most { result ≤ OVERLAP_MOST }
    {
        self.site(chunk).radius()
    }

    /// Returns the least overlap radius of all chunks. Does not allocate.
    pub fn least_radius(&self) -> u32
        ensures value { result ≡ least_overlap self.now }
        ensures most { result ≤ OVERLAP_MOST }
    {
        self.stripes
            .iter()
            .map(|stripe| stripe.overlap)
            .min()
            .unwrap_or(0)
    }

    /// Returns the greatest overlap radius of all chunks. Does not allocate.
    pub fn greatest_radius(&self) -> u32
        ensures value { result ≡ greatest_overlap self.now }
        ensures covers { CoversOverlaps self.now result }
        ensures most { result ≤ OVERLAP_MOST }
        ensures limits { IsSky self.now }
    {
        self.greatest
    }

    /// Returns the number of stripes, from 1 to 256. Does not allocate.
    pub fn stripes(&self) -> usize
        ensures { result ≡ length self.now.stripes }
    {
        self.stripes.len()
    }

    /// Returns the number of chunks, from 1 to 16,384. Does not allocate.
    pub fn chunks(&self) -> u32
        ensures count { result ≡ chunk_count self.now }
        ensures limits { IsSky self.now }
    {
        self.count
    }

    /// Returns the number of subchunks of a chunk, from 1 to 4,096. Does not allocate.
    pub fn subs(&self, chunk: u32) -> u32
        requires { chunk < chunk_count self.now }
        ensures { result ≡ sub_count self.now chunk }
    {
        self.site(chunk).subs()
    }

    /// Returns the bounds of a chunk. Does not allocate.
    pub fn region(&self, chunk: u32) -> Region
        requires { chunk < chunk_count self.now }
        ensures { bounds_shown result ≡ bounds_of self.now chunk }
    {
        self.site(chunk).region()
    }

    /// Returns the bounds of a subchunk. Does not allocate.
    pub fn sub_region(&self, chunk: u32, sub: u32) -> Region
        requires chunk { chunk < chunk_count self.now }
        requires sub { sub < sub_count self.now chunk }
        ensures { bounds_shown result ≡ sub_bounds_of self.now chunk sub }
    {
        self.site(chunk).sub_region(sub)
    }

    /// Returns the chunk that contains an admissible position, and the subchunk of it that does. Does not allocate.
    pub fn place_of(&self, p: &Pos) -> SubPlace
        requires { IsAdmissible (point p.now) }
        ensures { IsOnlyPlace self.now result.chunk result.sub (point p.now) }
    {
        self.place_in(self.stripe_of(p), p)
    }

    /// Returns the chunk and the subchunk of a position in the stripe with this number.
    fn place_in(&self, number: usize, p: &Pos) -> SubPlace
        requires admissible { IsAdmissible (point p.now) }
        requires spans { SpansHeight self.now number p.now.z }
        ensures { IsOnlyPlace self.now result.chunk result.sub (point p.now) }
    {
        let stripe = self.stripe_numbered(number);
        let fine = wedge_of(stripe.chunks * stripe.columns, p);
        let wedge = fine / stripe.columns;
        SubPlace {
            chunk: self.first_of(number) + wedge,
            sub: self
                .site_in(number, wedge)
                .sub_at(p.z, fine % stripe.columns),
        }
    }

    /// Returns the number of the chunk that contains an admissible position. Does not allocate.
    pub fn chunk_of(&self, p: &Pos) -> u32
        requires { IsAdmissible (point p.now) }
        ensures there { result < chunk_count self.now }
        ensures holds { IsTrue (in_chunk self.now result (point p.now)) }
        ensures only { IsOnlyChunk self.now result (point p.now) }
    {
        self.place_of(p).chunk
    }

    /// Returns the number of the chunk that contains an admissible position in the stripe with this number. Does not
    /// allocate.
    pub fn chunk_in(&self, number: usize, p: &Pos) -> u32
        requires admissible { IsAdmissible (point p.now) }
        requires spans { SpansHeight self.now number p.now.z }
        ensures there { result < chunk_count self.now }
        ensures holds { IsTrue (in_chunk self.now result (point p.now)) }
        ensures only { IsOnlyChunk self.now result (point p.now) }
    {
        self.place_in(number, p).chunk
    }

    /// Returns the number of the subchunk that contains an admissible position, in the chunk that contains it. Does not
    /// allocate.
    pub fn sub_of(&self, p: &Pos) -> u32
        requires { IsAdmissible (point p.now) }
        ensures { SubHolds self.now result (point p.now) }
    {
        self.place_of(p).sub
    }

    /// Returns the site of a chunk.
    fn site(&self, chunk: u32) -> Site
        requires { chunk < chunk_count self.now }
        ensures { result ≡ site_of self.now chunk }
    {
        let number = self.stripe_with(chunk);
        self.site_in(number, chunk - self.first_of(number))
    }

    /// Returns the site of a wedge of the stripe with this number.
    fn site_in(&self, number: usize, wedge: u32) -> Site
        requires stripe { number < length self.now.stripes }
        requires wedge { wedge < (stripe_numbered self.now number).chunks }
        ensures { result ≡ site_numbered self.now number wedge }
    {
        Site::new(self.stripe_numbered(number), self.end_of(number), wedge)
    }

    /// Returns the stripe with this number, from 0, lowest first. Does not allocate.
    pub fn stripe_numbered(&self, number: usize) -> Stripe
        requires { number < length self.now.stripes }
        ensures value { result ≡ stripe_numbered self.now number }
        ensures limits { IsStripe result }
        ensures sky { IsSky self.now }
    {
        self.stripes[number]
    }

    /// Returns the first z above the stripe with this number.
    fn end_of(&self, number: usize) -> i64
        requires { number < length self.now.stripes }
        ensures { result ≡ end_numbered self.now number }
    {
        let stripes = self.stripes.as_slice();
        if number + 1 < stripes.len() {
            let next = &stripes[number + 1];
            next.z_low
        } else {
            SKY_END
        }
    }

    /// Returns the number of the first chunk of the stripe with this number. Does not allocate.
    pub fn first_of(&self, number: usize) -> u32
        requires { number < length self.now.stripes }
        ensures { result ≡ chunks_in (take number self.now.stripes) }
    {
        self.firsts[number]
    }

    /// Returns the number of the stripe that contains the chunk, from 0.
    fn stripe_with(&self, chunk: u32) -> usize
        requires { chunk < chunk_count self.now }
        ensures { HasChunk self.now result chunk }
    {
        self.firsts.partition_point(|first| *first <= chunk) - 1
    }

    /// Returns the number of the stripe that contains the height, from 0. Does not allocate.
    pub fn stripe_at(&self, z: i64) -> usize
        requires bottom { sky_bottom ≤ℤ z }
        requires end { z <ℤ sky_end }
        ensures { SpansHeight self.now result z }
    {
        stripes_below(self.stripes.as_slice(), z) - 1
    }

    /// Returns the number of the stripe that contains an admissible position, from 0. Does not allocate.
    pub fn stripe_of(&self, p: &Pos) -> usize
        requires { IsAdmissible (point p.now) }
        ensures { SpansHeight self.now result p.now.z }
    {
        self.stripe_at(p.z)
    }

    /// Returns the number of the stripe that contains the height, from 0. The stripe with the given number, which may
    /// be any, is tried before the others. Does not allocate.
    pub fn stripe_beside(&self, number: usize, z: i64) -> usize
        requires number { number < length self.now.stripes }
        requires bottom { sky_bottom ≤ℤ z }
        requires end { z <ℤ sky_end }
        ensures { SpansHeight self.now result z }
    {
        let stripe = &self.stripes[number];
        if stripe.z_low <= z && z < self.end_of(number) {
            number
        } else {
            self.stripe_at(z)
        }
    }
}
