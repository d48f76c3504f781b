//! A region: a part of the sky, by its bounds.

ghost use Rattle.std.specs.Prelude.{◌≡◌, ◌+◌, ◌*◌, ◌≤◌, ◌<◌, ◌≤ℤ◌, ◌<ℤ◌};
ghost use Rattle.sky_rules.specs.Partition.{sky_bottom, sky_end};
ghost use Rattle.sky_rules.specs.declared.limits.TheConstants.{CUTS_MOST, STRIPE_CHUNKS_MOST};
ghost use Rattle.sky_rules.specs.Bounds.{sides_of, wedge_bounds};

use sky_vector::Dir;
use wedge_rules::direction_of;

/// The positions from `z_low` to `z_high` that are at or past the first side and short of the second. Without sides it
/// goes all round.
#[derive(Clone, Copy, Debug)]
pub struct Region {
    pub z_low: i64,
    pub z_high: i64,
    pub sides: Option<(Dir, Dir)>,
    /// Whether positions with x = y = 0 belong to it.
    pub axis: bool,
    pub ghost low_in_sky: { sky_bottom ≤ℤ z_low },
    pub ghost high_in_sky: { z_high <ℤ sky_end },
    pub ghost some_height: { z_low ≤ℤ z_high },
}

impl Region {
    ghost use Rattle.sky_plan.specs.Regions.{sides_shown, bounds_shown};

    /// Returns the region of a wedge of the given number of wedges, at least 1, from `z_low` up to but not including
    /// `end`, which is above it.
    pub(crate) fn of_wedge(wedges: u32, wedge: u32, z_low: i64, end: i64) -> Region
        requires few { wedges ≤ STRIPE_CHUNKS_MOST * CUTS_MOST }
        requires there { wedge < wedges }
        requires low { sky_bottom ≤ℤ z_low }
        requires some_height { z_low <ℤ end }
        requires high_end { end ≤ℤ sky_end }
        ensures { bounds_shown result ≡ wedge_bounds wedges wedge z_low end }
    {
        Region {
            z_low,
            z_high: end - 1,
            sides: Region::sides(wedges, wedge),
            axis: wedge == 0,
        }
    }

    /// Returns the sides of a wedge; a single wedge has none.
    fn sides(wedges: u32, wedge: u32) -> Option<(Dir, Dir)>
        requires few { wedges ≤ STRIPE_CHUNKS_MOST * CUTS_MOST }
        requires there { wedge < wedges }
        ensures { sides_shown result ≡ sides_of wedges wedge }
    {
        if wedges == 1 {
            None
        } else {
            Some((direction_of(wedges, wedge), direction_of(wedges, wedge + 1)))
        }
    }
}
