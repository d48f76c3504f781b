//! The choice of the chunks that a query needs, among those that have rows.

ghost use Rattle.std.specs.Prelude.{◌≡◌, ◌<◌, All, AllPairs, IfOk, filter};
ghost use Rattle.std.specs.List.{list_all};
ghost use Rattle.sky_rules.specs.Partition.{chunk_count};
ghost use Rattle.sky_rules.specs.Bounds.{bounds_of};
ghost use Rattle.chunk_rules.specs.Filled.{filled_chunks};
ghost use Rattle.answer_rules.specs.Plans.{area_meets, plan_of};

use crate::area::areas_meet;
use crate::ids::with_ids;
use crate::push::push_if;
use object_index::Index;
use scan_rules::ChunkSet;
use sky_io::Memory;
use sky_plan::SkyPlan;
use sql_bound::{AreaTest, Bound};
use std::alloc::Global;

/// Returns the chunks that a query needs, among those that have rows: each passes the query's area tests, and contains
/// one of the ids of each of its id tests. Allocates memory for the chunks, and for a mark a chunk while it looks several
/// ids up. The bounds of chunks without such an id are not computed.
pub fn plan(
    alloc: Global,
    bound: &Bound,
    sky: &SkyPlan,
    index: &Index<'_>,
    filled: &[u32],
) -> Result<ChunkSet, Memory>
    requires over { index.now.plan ≡ sky.now }
    requires there { All (λ c. c < chunk_count sky.now) filled.now }
    requires ascend { AllPairs (λ a b. a < b) filled.now }
    ensures plan { IfOk result (λ chunks. filled.now ≡ filled_chunks sky.now index.now.rows
        → chunks ≡ plan_of sky.now index.now.rows bound.now) }
    ensures there { IfOk result (λ chunks. All (λ c. c < chunk_count sky.now) chunks) }
{
    let areas = bound.areas.as_slice();
    let tests = bound.ids.as_slice();
    if tests.is_empty() {
        return in_areas(alloc, sky, areas, filled);
    }
    let chunks = with_ids(alloc, index, tests, filled)?;
    in_areas(alloc, sky, areas, chunks.as_slice())
}

/// Returns those of the chunks in which each of the areas may have a point.
fn in_areas(
    alloc: Global,
    sky: &SkyPlan,
    areas: &[AreaTest],
    chunks: &[u32],
) -> Result<ChunkSet, Memory>
    requires there { All (λ c. c < chunk_count sky.now) chunks.now }
    requires ascend { AllPairs (λ a b. a < b) chunks.now }
    ensures { IfOk result (λ kept.
        kept ≡ filter (λ c. list_all (area_meets (bounds_of sky.now c)) areas.now) chunks.now) }
{
    let mut kept = ChunkSet::new(alloc);
    for chunk in chunks {
        push_if(&mut kept, areas_meet_chunk(areas, sky, *chunk), *chunk)?;
    }
    Ok(kept)
}

/// Returns whether each of the areas may have a point in the chunk. Without areas its bounds are not computed.
fn areas_meet_chunk(areas: &[AreaTest], sky: &SkyPlan, chunk: u32) -> bool
    requires { chunk < chunk_count sky.now }
    ensures { result ≡ list_all (area_meets (bounds_of sky.now chunk)) areas.now }
{
    areas.is_empty() || areas_meet(areas, &sky.region(chunk))
}
