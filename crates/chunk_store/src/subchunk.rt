//! Whether a subchunk contains a position, and whether it needs a row there in addition to its own.

ghost use Rattle.std.specs.Prelude.{◌≡◌, ◌<◌, ◌&&◌, ◌==◌, not};
ghost use Rattle.sky_vector.specs.Points.{IsAdmissible};
ghost use Rattle.sky_vector.specs.Pos.{point};
ghost use Rattle.sky_rules.specs.Partition.{chunk_count, sub_count};
ghost use Rattle.sky_rules.specs.Bounds.{in_sub, near_sub};

use overlap_tables::in_near_sub;
use sky_plan::{SkyPlan, SubPlace};
use sky_vector::Pos;

/// Returns whether the location is this subchunk of this chunk.
fn is_place(place: &SubPlace, chunk: u32, sub: u32) -> bool
    ensures { result ≡ (place.now.chunk == chunk && place.now.sub == sub) }
{
    place.chunk == chunk && place.sub == sub
}

/// Returns whether the subchunk contains the position.
#[tactic(auto, using(crate::proofs::Subs::is_place))]
pub(crate) fn is_in(plan: &SkyPlan, chunk: u32, sub: u32, p: &Pos) -> bool
    requires chunk { chunk < chunk_count plan.now }
    requires sub { sub < sub_count plan.now chunk }
    requires admissible { IsAdmissible (point p.now) }
    ensures { result ≡ in_sub plan.now chunk sub (point p.now) }
{
    is_place(&plan.place_of(p), chunk, sub)
}

/// Returns whether the position is in the subchunk's near region and not in the subchunk.
pub(crate) fn is_near(plan: &SkyPlan, chunk: u32, sub: u32, p: &Pos) -> bool
    requires chunk { chunk < chunk_count plan.now }
    requires sub { sub < sub_count plan.now chunk }
    requires admissible { IsAdmissible (point p.now) }
    ensures { result ≡ (near_sub plan.now chunk sub (point p.now)
        && not (in_sub plan.now chunk sub (point p.now))) }
{
    in_near_sub(plan, chunk, sub, p) && !is_in(plan, chunk, sub, p)
}
