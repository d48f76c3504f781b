//! The direction of a wedge, by the five parts of the walk round the square.

ghost use Rattle.std.specs.Prelude.{◌≡◌, ◌+◌, ◌^◌, ◌≤◌, ◌-ℤ◌, pos};
ghost use Rattle.sky_vector.specs.declared.limits.TheConstants.{PART_MOST};
ghost use Rattle.wedge_rules.specs.Heading.{direction_shown, heading};

use sky_vector::Dir;

/// The direction (right - left, up - down), in steps.
fn of_steps(right: u64, left: u64, up: u64, down: u64) -> Dir
    requires right { right ≤ 2 ^ 33 }
    requires left { left ≤ 2 ^ 33 }
    requires up { up ≤ 2 ^ 33 }
    requires down { down ≤ 2 ^ 33 }
    requires x { (left ≤ right + PART_MOST) × (right ≤ left + PART_MOST) }
    requires y { (down ≤ up + PART_MOST) × (up ≤ down + PART_MOST) }
    ensures x { result.dx ≡ pos right -ℤ pos left }
    ensures y { result.dy ≡ pos up -ℤ pos down }
{
    Dir {
        dx: right as i64 - left as i64,
        dy: up as i64 - down as i64,
    }
}

/// The direction at which wedge k begins, in steps of the square whose half side is the number of wedges. The last
/// wedge ends where wedge 0 begins. Does not allocate.
#[tactic(auto, unfolding(crate::specs::Heading::heading, crate::specs::Heading::walk))]
pub fn direction_of(wedges: u32, k: u32) -> Dir
    requires few { wedges ≤ PART_MOST }
    requires there { k ≤ wedges }
    ensures { direction_shown result ≡ heading wedges k }
{
    let n = u64::from(wedges);
    let s = 8 * u64::from(k);
    if s < n {
        of_steps(n, 0, s, 0)
    } else if s < 3 * n {
        of_steps(2 * n, s, n, 0)
    } else if s < 5 * n {
        of_steps(0, n, 4 * n, s)
    } else if s < 7 * n {
        of_steps(s, 6 * n, 0, n)
    } else {
        of_steps(n, 0, s, 8 * n)
    }
}
