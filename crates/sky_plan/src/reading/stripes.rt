//! The stripes read so far, and the validation of the next one.
ghost use Rattle.std.specs.Prelude.{◌≡◌, ◌+◌, ◌≤◌, [], ◌∷◌, ◌++◌, ◌↔◌, ◌&&◌, ◌||◌, pos, Ok, Err, Some, None};
ghost use Rattle.std.specs.Prelude.{IfOk, IfErr, IfSome, IfNone, IsTrue, false, length};
ghost use Rattle.std.specs.Ordering.{int_eq};
ghost use Rattle.sky_rules.specs.Partition.{chunks_in};
ghost use Rattle.sky_rules.specs.SkyText.{is_cut, is_from, is_in_order, is_overlap, is_room};
ghost use Rattle.sky_rules.specs.SkyText.{judged_stripe, stripe_said};
ghost use Rattle.sky_rules.specs.SkyWords.{said_on};
ghost use Rattle.sky_io.specs.Stops.{IfBad};
ghost use Rattle.sky_plan.specs.Reading.{Adds, is_above};

use crate::reading::said::{Said, Version, said_on};
use crate::stripe::Stripe;
use sky_io::{Memory, Stop};
use sky_rules::SkyFault;
use sky_rules::limits::{
    CHUNKS_MOST, CUTS_MOST, HEIGHT_LEAST, OVERLAP_MOST, SKY_BOTTOM, SKY_END, STRIPE_CHUNKS_MOST,
    STRIPES_MOST,
};
use std::alloc::Global;
use std::marker::Model;

/// The highest z at which a stripe can begin: it leaves the least height below the end of the sky.
const HIGHEST: i128 = SKY_END as i128 - HEIGHT_LEAST as i128;

/// The stripes read so far, lowest first, with no more chunks than allowed.
#[derive(Drop)]
pub(crate) struct Stripes {
    list: Vec<Stripe>,
    chunks: u32,
}

impl Model for Stripes {
    ghost use Rattle.std.specs.Prelude.{◌≡◌, ◌≤◌, List};
    ghost use Rattle.sky_rules.specs.Partition.{Stripe as StripeShown, chunks_in};
    ghost use Rattle.sky_rules.specs.declared.limits.TheConstants.{CHUNKS_MOST};

    ghost Value = { List StripeShown };

    ghost view = { λ s. s.list.items };

    ghost invariant = { λ s. (s.chunks ≡ chunks_in s.list.items) × (s.chunks ≤ CHUNKS_MOST) };
}

impl Stripes {
    /// Creates an empty list of stripes. Does not allocate.
    pub(crate) fn new(alloc: Global) -> Stripes
        ensures { result ≡ [] }
    {
        Stripes {
            list: Vec::new(alloc),
            chunks: 0,
        }
    }

    /// Returns the stripes as a vector. Does not allocate.
    pub(crate) fn into_vec(self) -> Vec<Stripe>
        ensures { result.items ≡ self }
    {
        self.list
    }

    /// Returns whether there is no stripe.
    pub(crate) fn is_empty(&self) -> bool
        ensures { IsTrue result ↔ (self.now ≡ []) }
    {
        self.list.is_empty()
    }

    /// Appends the stripe on a line, or returns the line's fault. Allocates memory for the stripe.
    pub(crate) fn add(
        &mut self,
        version: &Version,
        number: u32,
        text: &[u8],
    ) -> Result<(), Stop<SkyFault>>
        ensures ok { IfOk result (λ _.
            Adds (judged_stripe number self.old (said_on version.now text.now)) self.old self.new) }
        ensures bad { IfErr result (λ stop. IfBad stop (λ fault.
            judged_stripe number self.old (said_on version.now text.now) ≡ Err fault)) }
    {
        let Some(said) = said_on(version, text) else {
            return Err(Stop::Bad(SkyFault::Syntax { line: number }));
        };
        match self.judged(number, &said) {
            Ok(stripe) => match self.push(stripe) {
                Ok(()) => Ok(()),
                Err(Memory) => Err(Stop::Memory),
            },
            Err(fault) => Err(Stop::Bad(fault)),
        }
    }

    /// Returns the stripe of these numbers, or its fault after the stripes so far.
    #[tactic(auto, using(crate::proofs::Judged::room_left))]
    fn judged(&self, line: u32, said: &Said) -> Result<Stripe, SkyFault>
        ensures value { result ≡ judged_stripe line self.now (Some said.now) }
        ensures room { IfOk result (λ stripe. chunks_in self.now + stripe.chunks ≤ CHUNKS_MOST) }
    {
        if !is_overlap(said.overlap) {
            return Err(SkyFault::Overlap { line });
        }
        let Some(z_low) = self.bound(said.z_low) else {
            return Err(SkyFault::Order { line });
        };
        if !is_cut(said) {
            return Err(SkyFault::Count { line });
        }
        if !self.has_room(said) {
            return Err(SkyFault::TooMany { line });
        }
        Ok(stripe_said(z_low, said))
    }

    /// Returns the height, if a stripe can begin there after these.
    #[tactic(auto, using(crate::proofs::Judged::order_above))]
    fn bound(&self, z: i128) -> Option<i64>
        ensures some { IfSome result (λ bound. IsTrue (is_in_order self.now z) × (bound ≡ z)) }
        ensures none { IfNone result (is_in_order self.now z ≡ false) }
    {
        match self.list.last() {
            Some(below) => bound_above(below.z_low, z),
            None if z == i128::from(SKY_BOTTOM) => Some(SKY_BOTTOM),
            None => None,
        }
    }

    /// Returns whether there is room for one more stripe, and for its chunks.
    fn has_room(&self, said: &Said) -> bool
        ensures { result ≡ is_room self.now said.now.chunks }
    {
        self.list.len() < STRIPES_MOST && said.chunks <= i128::from(CHUNKS_MOST - self.chunks)
    }

    /// Appends a stripe.
    fn push(&mut self, stripe: Stripe) -> Result<(), Memory>
        requires { chunks_in self.old + stripe.chunks ≤ CHUNKS_MOST }
        ensures { IfOk result (λ _. self.new ≡ self.old ++ stripe ∷ []) }
    {
        let chunks = self.chunks + stripe.chunks;
        if self.list.push(stripe).is_err() {
            return Err(Memory);
        }
        self.chunks = chunks;
        Ok(())
    }
}

/// Returns the height, if a stripe can begin there after one that begins at the other height.
fn bound_above(below: i64, z: i128) -> Option<i64>
    ensures some { IfSome result (λ bound. IsTrue (is_above below z) × (bound ≡ z)) }
    ensures none { IfNone result (is_above below z ≡ false) }
{
    if i128::from(below) + i128::from(HEIGHT_LEAST) <= z && z <= HIGHEST {
        Some(z as i64)
    } else {
        None
    }
}

/// Returns whether the number is in the range.
fn is_from(low: i128, high: i128, n: i128) -> bool
    ensures { result ≡ is_from low high n }
{
    low <= n && n <= high
}

/// Returns whether the number is an overlap radius, in grid units.
pub(crate) fn is_overlap(r: i128) -> bool
    ensures { result ≡ is_overlap r }
{
    is_from(0, i128::from(OVERLAP_MOST), r)
}

/// Returns whether a stripe can have this number of chunks.
fn is_chunks(chunks: i128) -> bool
    ensures { result ≡ (int_eq chunks (pos 1) || is_from (pos 3) (pos STRIPE_CHUNKS_MOST) chunks) }
{
    chunks == 1 || is_from(3, i128::from(STRIPE_CHUNKS_MOST), chunks)
}

/// Returns whether a chunk that goes all round is cut into two columns, which are no wedges.
fn is_halved(chunks: i128, columns: i128) -> bool
    ensures { result ≡ (int_eq chunks (pos 1) && int_eq columns (pos 2)) }
{
    chunks == 1 && columns == 2
}

/// Returns whether the numbers of chunks, columns and rows are those of a stripe.
fn is_cut(said: &Said) -> bool
    ensures { result ≡ is_cut said.now }
{
    is_chunks(said.chunks)
        && is_from(1, i128::from(CUTS_MOST), said.columns)
        && !is_halved(said.chunks, said.columns)
        && is_from(1, i128::from(CUTS_MOST), said.rows)
}

/// Returns the stripe of these numbers, with its height given separately.
fn stripe_said(z_low: i64, said: &Said) -> Stripe
    requires height { said.now.z_low ≡ z_low }
    requires overlap { IsTrue (is_overlap said.now.overlap) }
    requires cut { IsTrue (is_cut said.now) }
    ensures { result ≡ stripe_said said.now }
{
    Stripe::new(
        z_low,
        said.chunks.unsigned_abs() as u32,
        said.columns.unsigned_abs() as u32,
        said.rows.unsigned_abs() as u32,
        said.overlap.unsigned_abs() as u32,
    )
}
