//! The piece of a chunk.

ghost use Rattle.std.specs.Prelude.{◌≡◌, ◌<◌, ◌∷◌, [], IfOk, length};
ghost use Rattle.sky_rules.specs.Limits.{IsSky};
ghost use Rattle.sky_rules.specs.Partition.{chunk_count};
ghost use Rattle.table_rules.specs.Objects.{IsCatalogue};
ghost use Rattle.source_rules.specs.Sources.{IsSourceTable};
ghost use Rattle.child_rules.specs.Children.{IsChild};
ghost use Rattle.child_rules.specs.ChildPieces.{ChildFor};

use crate::scan::scan_sources;
use child_piece::ChildPiece;
use child_rules::ChildBound;
use chunk_store::Store;
use sky_io::Memory;
use source_row::Sources;
use source_rules::limits::SOURCE_FIRST_COLUMNS;
use source_store::SourceStore;
use std::alloc::Global;

/// Returns what the child query finds over the pairs whose object is in the chunk. Allocates memory for the piece, for a
/// flag and a number for each source of the chunk, and for the values of one row.
pub fn child_scan<'w>(
    alloc: Global,
    store: &'w Store,
    sources: &SourceStore<'_>,
    chunk: u32,
    query: &ChildBound,
) -> Result<ChildPiece<'w>, Memory>
    requires there { chunk < chunk_count store.now.plan }
    requires plan { sources.now.plan ≡ store.now.plan }
    requires objects { sources.now.objects ≡ store.now.rows.objects }
    requires child { IsChild query.now.bound }
    ensures { IfOk result (ChildFor store.now.plan store.now.rows.objects sources.now.table.sources
        query.now.bound (chunk ∷ [])) }
{
    within_limits(store);
    let width = further_columns(sources.sources());
    scan_sources(alloc, store.rows(), sources.columns(chunk), width, query)
}

/// Makes invariants of a store visible to contracts: its plan and its rows are within the limits. Does not allocate.
fn within_limits(store: &Store)
    ensures sky { IsSky store.now.plan }
    ensures rows { IsCatalogue store.now.rows }
{
    let _ = store.plan().chunks();
    let _ = store.rows().len();
}

/// Returns the number of extra columns of the sources, which are within the limits.
fn further_columns(sources: &Sources) -> usize
    ensures value { result ≡ length sources.now.names }
    ensures limits { IsSourceTable sources.now }
{
    let _ = sources.len();
    sources.schema().width() as usize - SOURCE_FIRST_COLUMNS
}
