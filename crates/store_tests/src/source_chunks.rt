//! What no clause says: that a store of sources is made if there is memory, and which sources its chunks have.
ghost use Rattle.std.specs.Prelude.{◌<◌};
ghost use Rattle.sky_rules.specs.Partition.{chunk_count};

use crate::subchunks::{SKY, plan_of, store_of};
use chunk_store::Store;
use object_index::Index;
use source_load::load_sources;
use source_row::Sources;
use source_store::SourceStore;
use std::alloc::Global;
use std::test::Fail;
use std::thread::Threads;

/// Five sources, of which the fourth is of an unknown object.
const FIVE: &[u8] =
    b"sourceId,objectId,flux,t\n101,1,11,1\n102,4,41,1\n103,1,12,2\n104,99,5,2\n105,5,51,2\n";

// Whether the first, the fifth and the last chunk have the sources of their objects, and the second has none.
fn lists_are(sources: &SourceStore<'_>) -> bool
    requires { 7 < chunk_count sources.now.plan }
{
    sources.chunk(0) == [4].as_slice()
        && sources.chunk(4) == [0, 2].as_slice()
        && sources.chunk(7) == [1].as_slice()
        && sources.chunk(1).is_empty()
}

// Whether the columns of the fifth chunk have the values of these sources, and those of the second chunk none.
fn columns_are(sources: &SourceStore<'_>) -> bool
    requires { 7 < chunk_count sources.now.plan }
{
    sources.columns(4).ids() == [101, 103].as_slice()
        && sources.columns(4).objects() == [1, 1].as_slice()
        && sources.columns(1).len() == 0
}

// Whether a store of these sources has them by chunk.
fn are_by_chunk(alloc: Global, store: &Store, sources: Sources) -> Result<bool, Fail> {
    if store.plan().chunks() < 8 {
        return Ok(false);
    }
    let index = Index::build(alloc, store.plan(), store.rows())?;
    let sources = SourceStore::build(alloc, store, &index, sources)?;
    Ok(lists_are(&sources) && columns_are(&sources) && sources.sources().len() == 5)
}

// Whether the sources of a text are by chunk in the store of the rows over a sky plan, if both texts are short.
fn has_sources<R: Threads + Sync>(
    rt: &R,
    alloc: Global,
    sky: &[u8],
    text: &[u8],
) -> Result<bool, Fail> {
    if text.len() > 99 {
        return Ok(false);
    }
    let Ok(sources) = load_sources(rt, alloc, 1, text) else {
        return Ok(false);
    };
    let Some(plan) = plan_of(alloc, sky) else {
        return Ok(false);
    };
    let Some(store) = store_of(rt, alloc, plan)? else {
        return Ok(false);
    };
    are_by_chunk(alloc, &store, sources)
}

#[test]
fn a_chunk_has_the_sources_of_its_objects(rt: HostRuntime) -> Result<(), Fail> {
    assert!(rt; has_sources(&rt, rt.alloc(), SKY, FIVE)?);
    Ok(())
}
