//! The columns of the sources of each chunk, side by side, so that a scan of the chunk reads them from one end to the other.

ghost use Rattle.std.specs.Prelude.{◌≡◌, ◌<◌, ℕ, [], All, IfOk, get_or, length};
ghost use Rattle.source_row.specs.SourceColumns.{AreSourceColumns, sources_in};
ghost use Rattle.source_store.specs.ChunkColumns.{AreChunkColumns, AreColumnsOf};

use chunk_store::Lists;
use sky_io::Memory;
use source_row::{SourceLists, Sources};
use std::alloc::Global;

/// Returns the columns of the sources with these numbers. Allocates memory for each column once.
#[tactic(auto, using(crate::proofs::ChunkColumns::columns_of))]
fn columns_of(alloc: Global, sources: &Sources, places: &[u32]) -> Result<SourceLists, Memory>
    requires { All (λ place. place < length sources.now.sources) places.now }
    ensures { IfOk result (AreColumnsOf sources.now places.now) }
{
    sources.lists().at(alloc, places)
}

/// Returns the columns of the sources in each of the lists.
pub(crate) fn chunk_columns(
    alloc: Global,
    sources: &Sources,
    lists: &Lists,
) -> Result<Vec<SourceLists>, Memory>
    requires { (c : ℕ) → c < length lists.now
        → All (λ place. place < length sources.now.sources) (get_or lists.now c []) }
    ensures { IfOk result (λ columns.
        AreChunkColumns sources.now lists.now (length lists.now) columns.items) }
{
    let mut columns = Vec::with_capacity(alloc, lists.len() as usize)?;
    for chunk in 0..lists.len() {
        let of_chunk = columns_of(alloc, sources, lists.of(chunk))?;
        columns.push_reserved(of_chunk);
    }
    Ok(columns)
}
