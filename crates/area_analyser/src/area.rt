//! Whether an area may have a point in a region. The tests may say yes where the area has no point.

ghost use Rattle.std.specs.Prelude.{◌≡◌};
ghost use Rattle.std.specs.List.{list_all};
ghost use Rattle.sky_plan.specs.Regions.{bounds_shown};
ghost use Rattle.answer_rules.specs.Plans.{area_meets, band_meets};

use crate::boxed::box_meets;
use crate::cap::cap_meets;
use sky_plan::Region;
use sql_bound::{AreaTest, SquaredRadius};

/// Returns whether each of the areas may have a point in the region.
pub(crate) fn areas_meet(areas: &[AreaTest], region: &Region) -> bool
    ensures { result ≡ list_all (area_meets (bounds_shown region.now)) areas.now }
{
    for area in areas {
        if !area_meets(area, region) {
            return false;
        }
    }
    true
}

/// Returns whether the area may have a point in the region.
fn area_meets(area: &AreaTest, region: &Region) -> bool
    ensures { result ≡ area_meets (bounds_shown region.now) area.now }
{
    match area {
        AreaTest::Band { lo, hi } => band_meets(*lo, *hi, region),
        AreaTest::Cap { centre, n } => cap_meets(centre, value_of(n), region),
        AreaTest::Boxed { lo, hi, a, b } => {
            band_meets(*lo, *hi, region) && box_meets(a, b, &region.sides)
        }
    }
}

/// Returns the value of a squared radius, at most 2^62.
fn value_of(n: &SquaredRadius) -> i64
    ensures { result ≡ n.now }
{
    n.get() as i64
}

/// Returns whether the band is not empty, and shares some height with the region.
fn band_meets(lo: i64, hi: i64, region: &Region) -> bool
    ensures { result ≡ band_meets lo hi (bounds_shown region.now) }
{
    lo <= hi && region.z_low <= hi && lo <= region.z_high
}
