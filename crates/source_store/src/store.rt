//! The store of sources: the source table, and which of its sources belong to each chunk.

ghost use Rattle.std.specs.Prelude.{◌≡◌, ◌<◌, All, IfOk, length};
ghost use Rattle.sky_rules.specs.Partition.{chunk_count};
ghost use Rattle.source_rules.specs.SourcePlaces.{chunk_sources};
ghost use Rattle.source_row.specs.SourceColumns.{AreEven, sources_at, sources_in};

use crate::columns::chunk_columns;
use crate::fill::numbers_by_chunk;
use chunk_store::{Lists, Store};
use object_index::Index;
use sky_io::Memory;
use source_row::{SourceLists, Sources};
use std::alloc::Global;
use std::marker::Model;

/// A survey's sources by chunk: for each chunk, the numbers of the sources whose object is in it, and their columns. A
/// source's number is its number in the table, from 0.
#[derive(Drop)]
pub struct SourceStore<'w> {
    store: &'w Store,
    sources: Sources,
    lists: Lists,
    columns: Vec<SourceLists>,
}

impl<'w> Model for SourceStore<'w> {
    ghost use Rattle.std.specs.Prelude.{length};
    ghost use Rattle.source_store.specs.SourceSurvey.{SourceSurvey};
    ghost use Rattle.source_store.specs.NumbersByChunk.{AreNumbersByChunk};
    ghost use Rattle.source_store.specs.ChunkColumns.{AreChunkColumns};

    ghost Value = { SourceSurvey };

    ghost view = { λ s. record { plan = s.store.now.plan; objects = s.store.now.rows.objects; table = s.sources } };

    ghost invariant = { λ s.
        AreNumbersByChunk s.store.now.plan s.store.now.rows.objects s.sources.sources
        (length s.sources.sources) s.lists
        × AreChunkColumns s.sources s.lists (length s.lists) s.columns.items };
}

impl<'w> SourceStore<'w> {
    /// Creates the store of the sources of a survey. `index` is the index of the survey's rows over its plan. Allocates
    /// memory for a number for each source, and for each column once more, and while it runs for the chunk of each row.
    /// If an allocation fails, the sources are dropped.
    pub fn build(
        alloc: Global,
        store: &'w Store,
        index: &Index<'_>,
        sources: Sources,
    ) -> Result<SourceStore<'w>, Memory>
        requires { index.now ≡ record { plan = store.now.plan; rows = store.now.rows.objects } }
        ensures { IfOk result (λ made. made
            ≡ record { plan = store.now.plan; objects = store.now.rows.objects; table = sources }) }
    {
        let lists = numbers_by_chunk(alloc, index, store.rows(), &sources)?;
        let columns = chunk_columns(alloc, &sources, &lists)?;
        Ok(SourceStore {
            store,
            sources,
            lists,
            columns,
        })
    }

    /// Returns the sources from which it was created. Does not allocate.
    pub fn sources(&self) -> &Sources
        ensures { result.now ≡ self.now.table }
    {
        &self.sources
    }

    /// Returns the numbers, ascending, of the sources whose object is in the chunk. Does not allocate.
    #[tactic(auto, using(crate::proofs::Leading::sources_there))]
    pub fn chunk(&self, chunk: u32) -> &[u32]
        requires { chunk < chunk_count self.now.plan }
        ensures value { result.now
            ≡ chunk_sources self.now.plan self.now.objects self.now.table.sources chunk }
        ensures there { All (λ place. place < length self.now.table.sources) result.now }
    {
        self.lists.of(chunk)
    }

    /// Returns the columns of the chunk's sources, in the order of `chunk`. Does not allocate.
    pub fn columns(&self, chunk: u32) -> &SourceLists
        requires { chunk < chunk_count self.now.plan }
        ensures even { AreEven result.now }
        ensures wide { length result.now.further ≡ length self.now.table.names }
        ensures sources { sources_in result.now ≡ sources_at self.now.table.sources
            (chunk_sources self.now.plan self.now.objects self.now.table.sources chunk) }
    {
        &self.columns[chunk as usize]
    }
}
