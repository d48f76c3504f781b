//! Finds the wedge of a position by a division. The position is rotated by quarter turns to the right side of the
//! square. The number of its step there is a quotient.

ghost use Rattle.std.specs.Prelude.{◌≡◌, ◌*◌, ◌^◌, ◌<◌, ◌≤◌, pos, neg_ℤ, ◌<ℤ◌, ◌≤ℤ◌, ◌⊎◌};
ghost use Rattle.sky_vector.specs.declared.limits.TheConstants.{PART_MOST};
ghost use Rattle.wedge_rules.specs.Wedge.{InWedge, IsWedgeCount};
ghost use Rattle.wedge_rules.specs.Bearing.{IsBearing, wedge_at};

use sky_vector::Pos;

/// The wedge of a point after its rotation to the right side.
#[tactic(auto, unfolding(crate::specs::Bearing::wedge_at, crate::specs::Bearing::from_middle))]
fn turned_wedge(wedges: u64, ahead: i64, side: i64, turned: u64) -> u64
    requires few { wedges ≤ 2 ^ 32 }
    requires near { ahead ≤ℤ pos PART_MOST }
    requires left { neg_ℤ ahead ≤ℤ side }
    requires right { side <ℤ ahead }
    requires turned { turned ≤ 6 * wedges }
    ensures { result ≡ wedge_at wedges ahead side turned }
{
    let steps = wedges * (side + ahead).unsigned_abs() / ahead.unsigned_abs() + turned;
    if steps < wedges {
        (steps + 7 * wedges) / 8
    } else {
        (steps - wedges) / 8
    }
}

/// The wedge of a point off the axis, of three wedges or more.
fn bearing(wedges: u64, x: i64, y: i64) -> u64
    requires some { 3 ≤ wedges }
    requires few { wedges ≤ 2 ^ 32 }
    requires x_low { neg_ℤ (pos PART_MOST) ≤ℤ x }
    requires x_high { x ≤ℤ pos PART_MOST }
    requires y_low { neg_ℤ (pos PART_MOST) ≤ℤ y }
    requires y_high { y ≤ℤ pos PART_MOST }
    requires off_axis { ((x <ℤ pos 0) ⊎ (pos 0 <ℤ x)) ⊎ ((y <ℤ pos 0) ⊎ (pos 0 <ℤ y)) }
    ensures { IsBearing wedges result x y }
{
    if y < x {
        if -x <= y {
            turned_wedge(wedges, x, y, 0)
        } else {
            turned_wedge(wedges, -y, x, 6 * wedges)
        }
    } else if -x < y {
        turned_wedge(wedges, y, -x, 2 * wedges)
    } else if x < y {
        turned_wedge(wedges, -x, -y, 4 * wedges)
    } else {
        turned_wedge(wedges, -y, x, 6 * wedges)
    }
}

/// The number of the wedge that holds the position, from 0. There is 1 wedge, or there are 3 or more. Does not
/// allocate.
pub fn wedge_of(wedges: u32, p: &Pos) -> u32
    requires { IsWedgeCount wedges }
    ensures inside { result < wedges }
    ensures holds { InWedge wedges result p.now.x p.now.y }
{
    if wedges == 1 {
        0
    } else if p.x != 0 || p.y != 0 {
        bearing(u64::from(wedges), p.x, p.y) as u32
    } else {
        0
    }
}
