//! Fills the lists of a store of sources, in one traversal of the sources.
//!
//! The chunk of each row is found once, before. Then a source needs the row of its object: if the ids of the objects are
//! consecutive, one subtraction gives it, and otherwise a search of the index.

ghost use Rattle.std.specs.Prelude.{◌≡◌, ◌<◌, IfOk, IfSome, OnOk, length, option_to_list};
ghost use Rattle.sky_rules.specs.Partition.{chunk_count};
ghost use Rattle.chunk_store.specs.Lists.{Pushed};
ghost use Rattle.source_store.specs.NumbersByChunk.{AreNumbersByChunk, LeadsTo};
ghost use Rattle.source_store.specs.RowChunks.{AreConsecutive, AreRowChunks};

use crate::rows::{chunks_of_rows, first_of_consecutive, row_of};
use chunk_store::Lists;
use object_index::Index;
use sky_io::Memory;
use sky_row::Rows;
use source_row::Sources;
use std::alloc::Global;

/// Returns the chunk of the object with the id, or `None` if no object has it. It is searched for in the index.
fn searched(index: &Index<'_>, id: i64) -> Option<u32>
    ensures { LeadsTo index.now.plan index.now.rows id result }
{
    match index.place(id) {
        Some(place) => Some(place.chunk),
        None => None,
    }
}

/// Returns the chunk of the object with the id, or `None` if no object has it. `chunks` has the chunk of each row, and
/// `first` is the id of the first row if the ids are consecutive.
fn chunk_of(
    index: &Index<'_>,
    rows: &Rows,
    chunks: &[u32],
    first: Option<i64>,
    id: i64,
) -> Option<u32>
    requires rows { rows.now.objects ≡ index.now.rows }
    requires chunks { AreRowChunks index.now.plan rows.now.objects (length rows.now.objects)
        chunks.now }
    requires first { IfSome first (AreConsecutive rows.now.objects (length rows.now.objects)) }
    ensures { LeadsTo index.now.plan index.now.rows id result }
{
    // the contract of `len` gives that the ids ascend
    let _count = rows.len();
    match row_of(rows, first, id) {
        Some(row) => Some(chunks[row as usize]),
        None => searched(index, id),
    }
}

/// Appends the number of a source to the list of the chunk, if there is one.
#[tactic(auto, using(chunk_store::proofs::Pushing::pushed_none))]
fn push(lists: &mut Lists, chunk: Option<u32>, place: u32) -> Result<(), Memory>
    requires { IfSome chunk (λ c. c < length lists.old) }
    ensures { OnOk result (Pushed (option_to_list chunk) place lists.old lists.new) }
{
    match chunk {
        Some(chunk) => lists.push(chunk, place),
        None => Ok(()),
    }
}

/// Returns, for each chunk, the numbers of the sources whose object is in it. `rows` are the rows of the index. Allocates
/// memory for these numbers and, while it runs, for the chunk of each row.
pub(crate) fn numbers_by_chunk(
    alloc: Global,
    index: &Index<'_>,
    rows: &Rows,
    sources: &Sources,
) -> Result<Lists, Memory>
    requires { rows.now.objects ≡ index.now.rows }
    ensures { IfOk result (λ lists. AreNumbersByChunk index.now.plan index.now.rows
        sources.now.sources (length sources.now.sources) lists) }
{
    let chunks = chunks_of_rows(alloc, index.plan(), rows)?;
    let first = first_of_consecutive(rows);
    let mut lists = Lists::empty(alloc, index.plan().chunks())?;
    for place in 0..sources.len() {
        let id = sources.objects()[place as usize];
        let chunk = chunk_of(index, rows, chunks.as_slice(), first, id);
        push(&mut lists, chunk, place)?;
    }
    Ok(lists)
}
