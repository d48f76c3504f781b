//! The stripes that have chunks near a position, and the chunks of them that need it as overlap.

ghost use Rattle.std.specs.Prelude.{◌≡◌, ◌+◌, ◌++◌, ◌<◌, ◌≤◌, ◌≤ℤ◌, ◌<ℤ◌, IfOk, length};
ghost use Rattle.sky_vector.specs.Points.{IsAdmissible};
ghost use Rattle.sky_vector.specs.Pos.{point};
ghost use Rattle.sky_rules.specs.Partition.{sky_bottom, sky_end};
ghost use Rattle.sky_rules.specs.declared.limits.TheConstants.{OVERLAP_MOST};
ghost use Rattle.overlap_tables.specs.Heights.{HaveOthers, ReachesDown, ReachesUp, first_chunk};
ghost use Rattle.overlap_tables.specs.Overlaps.{AddsFront, IsOwn, others_between};

use crate::chunks::push_others;
use crate::wedges::candidates;
use sky_io::Memory;
use sky_plan::SkyPlan;
use sky_rules::limits::{SKY_BOTTOM, SKY_END};
use sky_vector::Pos;

/// Returns the stripes, from a number up to but not including another, that contain each chunk near an admissible
/// position. They are searched for within the greatest overlap radius, since a chunk reaches as far as that of its own
/// stripe. The search begins at the given stripe: mostly the one that contains the position is all of them.
pub(crate) fn stripes_near(plan: &SkyPlan, stripe: usize, p: &Pos) -> (usize, usize)
    requires admissible { IsAdmissible (point p.now) }
    requires stripe { stripe < length plan.now.stripes }
    ensures { HaveOthers plan.now (point p.now) result.0 result.1 }
{
    let reach = plan.greatest_radius();
    let from = plan.stripe_beside(stripe, lowest(p.z, reach));
    let last = plan.stripe_beside(stripe, highest(p.z, reach));
    (from, last + 1)
}

/// Returns the lowest height within the reach of another one.
fn lowest(z: i64, reach: u32) -> i64
    requires reach { reach ≤ OVERLAP_MOST }
    requires bottom { sky_bottom ≤ℤ z }
    requires end { z <ℤ sky_end }
    ensures bottom { sky_bottom ≤ℤ result }
    ensures end { result <ℤ sky_end }
    ensures below { result ≤ℤ z }
    ensures reaches { ReachesDown z reach result }
{
    let low = z - i64::from(reach);
    if low < SKY_BOTTOM { SKY_BOTTOM } else { low }
}

/// Returns the highest height within the reach of another one.
fn highest(z: i64, reach: u32) -> i64
    requires reach { reach ≤ OVERLAP_MOST }
    requires bottom { sky_bottom ≤ℤ z }
    requires end { z <ℤ sky_end }
    ensures bottom { sky_bottom ≤ℤ result }
    ensures end { result <ℤ sky_end }
    ensures above { z ≤ℤ result }
    ensures reaches { ReachesUp z reach result }
{
    let high = z + i64::from(reach);
    if high < SKY_END { high } else { SKY_END - 1 }
}

/// Appends those chunks of some stripes whose full overlap contains the position, ascending.
pub(crate) fn push_in_stripes(
    plan: &SkyPlan,
    own: u32,
    from: usize,
    to: usize,
    p: &Pos,
    into: &mut Vec<u32>,
) -> Result<(), Memory>
    requires own { IsOwn plan.now own (point p.now) }
    requires order { from ≤ to }
    requires there { to ≤ length plan.now.stripes }
    ensures all { IfOk result (λ _. into.new.items ≡ into.old.items
        ++ others_between plan.now (point p.now) (first_chunk plan.now from) (first_chunk plan.now to)) }
    ensures part { AddsFront into.old.items into.new.items
        (others_between plan.now (point p.now) (first_chunk plan.now from) (first_chunk plan.now to)) }
{
    for number in from..to {
        push_in_stripe(plan, own, number, p, into)?;
    }
    Ok(())
}

/// Appends those chunks of a stripe whose full overlap contains the position, ascending.
fn push_in_stripe(
    plan: &SkyPlan,
    own: u32,
    number: usize,
    p: &Pos,
    into: &mut Vec<u32>,
) -> Result<(), Memory>
    requires own { IsOwn plan.now own (point p.now) }
    requires there { number < length plan.now.stripes }
    ensures all { IfOk result (λ _.
        into.new.items ≡ into.old.items ++ others_between plan.now (point p.now)
        (first_chunk plan.now number) (first_chunk plan.now (number + 1))) }
    ensures part { AddsFront into.old.items into.new.items (others_between plan.now (point p.now)
        (first_chunk plan.now number) (first_chunk plan.now (number + 1))) }
{
    let stripe = plan.stripe_numbered(number);
    let first = plan.first_of(number);
    let near = candidates(stripe.chunks(), stripe.overlap(), p);
    push_others(plan, own, first + near.low, first + near.low_end, p, into)?;
    push_others(
        plan,
        own,
        first + near.middle,
        first + near.middle_end,
        p,
        into,
    )?;
    push_others(plan, own, first + near.high, first + near.high_end, p, into)
}
