//! The wedges of a stripe that a position can be near, found by a walk over the sides around it.
//!
//! A position is near a wedge that does not contain it only if it is near the line of one of the wedge's two sides. The
//! walk goes both ways from the wedge that contains the position, each way up to the first side whose line the position
//! is far from. If the arc between these two sides is less than half a turn, the position is far from each line that
//! does not pass through the arc. So it can be near the wedges of that arc, and those opposite to it, whose sides are
//! on the same lines. If the arc is a single wedge and the number of wedges is even, the wedge opposite has no line
//! inside of it, and is left out. A longer arc results from few wedges, or from a position near the axis: then all
//! wedges are candidates.

ghost use Rattle.std.specs.Prelude.{◌≡◌, ◌+◌, ◌*◌, ◌-◌, ◌/◌, ◌%◌, ◌<◌, ◌≤◌, IfSome, false, min};
ghost use Rattle.sky_vector.specs.Pos.{point};
ghost use Rattle.wedge_rules.specs.Heading.{heading};
ghost use Rattle.wedge_rules.specs.Wedge.{IsWedgeCount};
ghost use Rattle.sky_rules.specs.Bounds.{near_side};
ghost use Rattle.sky_rules.specs.declared.limits.TheConstants.{OVERLAP_MOST, STRIPE_CHUNKS_MOST};
ghost use Rattle.overlap_tables.specs.Windows.{AreCandidates, CoverWay, IsNarrow, IsWindow, side_back, side_on};

use crate::near::is_near_side;
use sky_vector::Pos;
use wedge_rules::{direction_of, wedge_of};

/// Three consecutive runs of wedges, each from its first wedge up to but not including its end.
#[derive(Clone, Copy)]
pub(crate) struct Runs {
    pub(crate) low: u32,
    pub(crate) low_end: u32,
    pub(crate) middle: u32,
    pub(crate) middle_end: u32,
    pub(crate) high: u32,
    pub(crate) high_end: u32,
}

/// Returns the runs outside of which no wedge has the position in its near region, for the wedges of a stripe and a
/// radius in grid units.
pub(crate) fn candidates(wedges: u32, radius: u32, p: &Pos) -> Runs
    requires count { IsWedgeCount wedges }
    requires few { wedges ≤ STRIPE_CHUNKS_MOST }
    requires radius { radius ≤ OVERLAP_MOST }
    ensures { AreCandidates wedges radius (point p.now)
        result.low result.low_end result.middle result.middle_end result.high result.high_end }
{
    match window(wedges, radius, p) {
        None => all(wedges),
        Some((first, second)) => of_way(wedges, first, second),
    }
}

/// Returns all wedges, as the last run.
fn all(wedges: u32) -> Runs
    ensures empty_low { (result.low ≡ 0) × (result.low_end ≡ 0) }
    ensures empty_middle { (result.middle ≡ 0) × (result.middle_end ≡ 0) }
    ensures high { (result.high ≡ 0) × (result.high_end ≡ wedges) }
{
    Runs {
        low: 0,
        low_end: 0,
        middle: 0,
        middle_end: 0,
        high: 0,
        high_end: wedges,
    }
}

/// Returns a single wedge, for an even number of wedges. The wedge opposite has its sides on the same two lines. So
/// a position between these that is far from both is not near the opposite wedge.
#[tactic(auto, using(crate::proofs::Runs::alone_cover))]
fn alone(wedges: u32, wedge: u32) -> Runs
    requires few { wedges ≤ STRIPE_CHUNKS_MOST }
    requires even { wedges % 2 ≡ 0 }
    requires there { wedge < wedges }
    ensures { CoverWay wedges wedge (wedge + 1)
        result.low result.low_end result.middle result.middle_end result.high result.high_end }
{
    Runs {
        low: 0,
        low_end: 0,
        middle: wedge,
        middle_end: wedge + 1,
        high: wedges,
        high_end: wedges,
    }
}

/// Returns the wedges between two sides that are less than half a turn apart, and those opposite to them.
fn of_way(wedges: u32, first: u32, second: u32) -> Runs
    requires few { wedges ≤ STRIPE_CHUNKS_MOST }
    requires first { first < wedges }
    requires second { second ≤ wedges }
    requires narrow { IsNarrow wedges first second }
    ensures { CoverWay wedges first second
        result.low result.low_end result.middle result.middle_end result.high result.high_end }
{
    let half = wedges / 2;
    let other_half = wedges - half;
    if first + 1 == second && wedges % 2 == 0 {
        alone(wedges, first)
    } else if first < second {
        Runs {
            low: first.saturating_sub(other_half),
            low_end: second.saturating_sub(half),
            middle: first,
            middle_end: second,
            high: wedges.min(first + half),
            high_end: wedges.min(second + other_half),
        }
    } else {
        Runs {
            low: 0,
            low_end: second,
            middle: first - other_half,
            middle_end: second + other_half,
            high: first,
            high_end: wedges,
        }
    }
}

/// Returns the sides at which the walk ends, if they are less than half a turn apart.
fn window(wedges: u32, radius: u32, p: &Pos) -> Option<(u32, u32)>
    requires count { IsWedgeCount wedges }
    requires few { wedges ≤ STRIPE_CHUNKS_MOST }
    requires radius { radius ≤ OVERLAP_MOST }
    ensures { IfSome result (λ sides. IsWindow wedges radius sides.0 sides.1 (point p.now)) }
{
    let own = wedge_of(wedges, p);
    let back = steps_back(wedges, radius, own, p)?;
    let on = steps_on(wedges, radius, own, p)?;
    if 2 * (back + 1 + on) < wedges {
        Some((side_back(wedges, own, back), side_on(wedges, own, on)))
    } else {
        None
    }
}

/// Returns the number of steps back from the first side of a wedge to the first side whose line the position is far
/// from. The search ends after half a turn.
fn steps_back(wedges: u32, radius: u32, wedge: u32, p: &Pos) -> Option<u32>
    requires few { wedges ≤ STRIPE_CHUNKS_MOST }
    requires radius { radius ≤ OVERLAP_MOST }
    requires there { wedge < wedges }
    ensures within { IfSome result (λ steps. steps < wedges) }
    ensures far { IfSome result (λ steps.
        near_side radius (heading wedges (side_back wedges wedge steps)) (point p.now) ≡ false) }
{
    for steps in 0..wedges / 2 {
        if !is_near(wedges, radius, side_back(wedges, wedge, steps), p) {
            return Some(steps);
        }
    }
    None
}

/// Returns the number of steps on from the second side of the wedge to the first side whose line the position is far
/// from. The search ends after half a turn.
fn steps_on(wedges: u32, radius: u32, wedge: u32, p: &Pos) -> Option<u32>
    requires few { wedges ≤ STRIPE_CHUNKS_MOST }
    requires radius { radius ≤ OVERLAP_MOST }
    requires there { wedge < wedges }
    ensures within { IfSome result (λ steps. steps < wedges) }
    ensures far { IfSome result (λ steps.
        near_side radius (heading wedges (side_on wedges wedge steps)) (point p.now) ≡ false) }
{
    for steps in 0..wedges / 2 {
        if !is_near(wedges, radius, side_on(wedges, wedge, steps), p) {
            return Some(steps);
        }
    }
    None
}

/// Returns whether the position is, in the plane, no farther than the radius from the line of a side.
///
/// The call is kept out of the loop of a walk, which mostly ends at its first side. For x86-64-v3 the compiler
/// would otherwise make vector code of that loop for many sides at once, which takes ten times as long.
#[inline(never)]
fn is_near(wedges: u32, radius: u32, side: u32, p: &Pos) -> bool
    requires few { wedges ≤ STRIPE_CHUNKS_MOST }
    requires radius { radius ≤ OVERLAP_MOST }
    requires there { side ≤ wedges }
    ensures { result ≡ near_side radius (heading wedges side) (point p.now) }
{
    is_near_side(&direction_of(wedges, side), radius, p)
}

/// Returns the side that is the given number of steps back from the first side of a wedge, round the sky.
fn side_back(wedges: u32, wedge: u32, steps: u32) -> u32
    requires few { wedges ≤ STRIPE_CHUNKS_MOST }
    requires there { wedge < wedges }
    requires steps { steps < wedges }
    ensures value { result ≡ side_back wedges wedge steps }
    ensures there { result < wedges }
{
    if wedge < steps {
        wedge + wedges - steps
    } else {
        wedge - steps
    }
}

/// Returns the side that is the given number of steps on from the second side of a wedge, round the sky.
fn side_on(wedges: u32, wedge: u32, steps: u32) -> u32
    requires few { wedges ≤ STRIPE_CHUNKS_MOST }
    requires there { wedge < wedges }
    requires steps { steps < wedges }
    ensures value { result ≡ side_on wedges wedge steps }
    ensures there { result ≤ wedges }
{
    let side = wedge + 1 + steps;
    if wedges < side { side - wedges } else { side }
}
