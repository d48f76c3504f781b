//! The blocks of the chunks that have rows.
//!
//! Rows of one chunk are far apart in the table, so the table is read in parts that fit the processor's cache. From
//! each part, every block is given its rows there, some tens, before the next part is read. Each thread builds the
//! blocks of consecutive chunks. The chunks are shared among the threads by their numbers of rows, since one chunk may
//! have a quarter of all rows.

ghost use Rattle.std.specs.Thread.{IsSync};
ghost use Rattle.std.specs.Prelude.{◌≡◌, ◌<◌, ◌≤◌, [], IfOk, OnOk, All, AllPairs, drop, get_or, length, map, take};
ghost use Rattle.std.specs.List.{Contains};
ghost use Rattle.column_lists.specs.Columns.{AreAligned, AreRows, objects_of};
ghost use Rattle.sky_row.specs.Columns.{objects_at};
ghost use Rattle.column_lists.specs.Filling.{AreBegun};
ghost use Rattle.chunk_store.specs.Lists.{AreBegunBlocks, AreThere, block_at};

use crate::lists::Lists;
use column_block::Block;
use sky_io::Memory;
use sky_row::{Lists as RowLists, Rows};
use std::alloc::Global;
use std::thread::{Threads, join};
use table_rules::limits::FIRST_COLUMNS;

/// The number of rows in a part of the table for each block. It is small, so that the part stays in the cache, and
/// large enough to pay for the traversal of all blocks.
const ROWS_A_TURN: usize = 64;

/// Fewer chunks are gathered by one thread: starting another costs more than it gains.
const SHORT: usize = 4;

/// Returns the block of each of the chunks, in their order, built by the given number of threads. Allocates memory for
/// their columns. A thread that cannot be started costs only time.
pub(crate) fn blocks_of<R: Threads + Sync>(
    rt: &R,
    alloc: Global,
    threads: u32,
    rows: &Rows,
    own: &Lists,
    chunks: &[u32],
) -> Result<Vec<Block>, Memory>
    requires chunks { All (λ chunk. chunk < length own.now) chunks.now }
    requires there { All (λ list. All (λ place. place < length rows.now.objects) list) own.now }
    ensures { IfOk result (λ blocks. blocks.items
        ≡ map (λ chunk. block_at rows.now (get_or own.now chunk [])) chunks.now) }
{
    let part = ROWS_A_TURN.saturating_mul(chunks.len()).max(1);
    blocks_by(rt, alloc, threads, rows, own, chunks, part)
}

/// Returns the block of each of the chunks, built by the given number of threads from parts of `part` rows of the
/// table.
fn blocks_by<R: Threads + Sync>(
    rt: &R,
    alloc: Global,
    threads: u32,
    rows: &Rows,
    own: &Lists,
    chunks: &[u32],
    part: usize,
) -> Result<Vec<Block>, Memory>
    requires chunks { All (λ chunk. chunk < length own.now) chunks.now }
    requires there { All (λ list. All (λ place. place < length rows.now.objects) list) own.now }
    requires part { 0 < part }
    ensures { IfOk result (λ blocks. blocks.items
        ≡ map (λ chunk. block_at rows.now (get_or own.now chunk [])) chunks.now) }
{
    if threads < 2 || chunks.len() < SHORT {
        return blocks_from(alloc, rows, own, chunks, part);
    }
    let low = threads / 2;
    let high = threads - low;
    let at = cut_of(own, chunks, threads, low);
    let (front, rest) = chunks.split_at(at);
    let (first, second) = join(
        rt,
        || -> Result<Vec<Block>, Memory>
            requires { IsSync R.row × AreThere own.now rows.now.objects front.now × (0 < part) }
            ensures { IfOk result (λ blocks. blocks.items
                ≡ map (λ chunk. block_at rows.entry.now (get_or own.entry.now chunk [])) front.entry.now) }
        { blocks_by(rt, alloc, low, rows, own, front, part) },
        || -> Result<Vec<Block>, Memory>
            requires { IsSync R.row × AreThere own.now rows.now.objects rest.now × (0 < part) }
            ensures { IfOk result (λ blocks. blocks.items
                ≡ map (λ chunk. block_at rows.entry.now (get_or own.entry.now chunk [])) rest.entry.now) }
        { blocks_by(rt, alloc, high, rows, own, rest, part) },
    );
    both_blocks(rows, own, chunks, at, first?, second?)
}

/// Returns the number of rows of the chunks.
fn rows_in(own: &Lists, chunks: &[u32]) -> usize
    requires { All (λ chunk. chunk < length own.now) chunks.now }
{
    let mut count = 0usize;
    for chunk in chunks {
        count = count.wrapping_add(own.of(*chunk).len());
    }
    count
}

/// Returns the number of first chunks that together have the rows of `some` of the threads, about `some / threads` of
/// all rows.
fn cut_of(own: &Lists, chunks: &[u32], threads: u32, some: u32) -> usize
    requires chunks { All (λ chunk. chunk < length own.now) chunks.now }
    requires threads { 0 < threads }
    ensures { result ≤ length chunks.now }
{
    let wanted = (rows_in(own, chunks) / threads as usize).saturating_mul(some as usize);
    let mut count = 0usize;
    for k in 0..chunks.len() {
        if count >= wanted {
            return k;
        }
        count = count.wrapping_add(own.of(chunks[k]).len());
    }
    chunks.len()
}

/// Returns the blocks of all chunks, given those of the first ones and those of the others.
#[tactic(auto, using(crate::proofs::Begun::blocks_both))]
fn both_blocks(
    rows: &Rows,
    own: &Lists,
    chunks: &[u32],
    at: usize,
    first: Vec<Block>,
    second: Vec<Block>,
) -> Result<Vec<Block>, Memory>
    requires first { first.items
        ≡ map (λ chunk. block_at rows.now (get_or own.now chunk [])) (take at chunks.now) }
    requires second { second.items
        ≡ map (λ chunk. block_at rows.now (get_or own.now chunk [])) (drop at chunks.now) }
    ensures { IfOk result (λ blocks. blocks.items
        ≡ map (λ chunk. block_at rows.now (get_or own.now chunk [])) chunks.now) }
{
    let mut blocks = first;
    let mut others = second;
    blocks.append(&mut others)?;
    Ok(blocks)
}

/// Returns the block of each of the chunks, built by this thread from parts of `part` rows of the table.
fn blocks_from(
    alloc: Global,
    rows: &Rows,
    own: &Lists,
    chunks: &[u32],
    part: usize,
) -> Result<Vec<Block>, Memory>
    requires chunks { All (λ chunk. chunk < length own.now) chunks.now }
    requires there { All (λ list. All (λ place. place < length rows.now.objects) list) own.now }
    requires part { 0 < part }
    ensures { IfOk result (λ blocks. blocks.items
        ≡ map (λ chunk. block_at rows.now (get_or own.now chunk [])) chunks.now) }
{
    let table = rows.lists();
    let begun = begun_blocks(alloc, rows, table, own, chunks, part)?;
    let mut blocks = Vec::with_capacity(alloc, chunks.len())?;
    for lists in begun {
        let block = finished(alloc, table, own, chunks, blocks.len(), lists)?;
        blocks.push_reserved(block);
    }
    Ok(blocks)
}

/// Returns the block of the chunk with index `k`, from 0, among the chunks, from the columns of its first rows.
fn finished(
    alloc: Global,
    table: &RowLists,
    own: &Lists,
    chunks: &[u32],
    k: usize,
    begun: RowLists,
) -> Result<Block, Memory>
    requires there { k < length chunks.now }
    requires chunks { All (λ chunk. chunk < length own.now) chunks.now }
    requires rows { AreRows table.now }
    requires places { All (λ list. All (λ place. place < length table.now.ids) list) own.now }
    requires begun { AreBegun table.now (get_or own.now (get_or chunks.now k 0) []) begun }
    ensures { IfOk result (λ block. block ≡ record {
      width = length table.now.further;
      objects = objects_at (objects_of table.now) (get_or own.now (get_or chunks.now k 0) []);
    }) }
{
    Block::finish(alloc, table, own.of(chunks[k]), begun)
}

/// Returns, for each of the chunks, the columns of its first rows: those in the whole parts of the table. The rest of
/// the table is less than a part.
fn begun_blocks(
    alloc: Global,
    rows: &Rows,
    table: &RowLists,
    own: &Lists,
    chunks: &[u32],
    part: usize,
) -> Result<Vec<RowLists>, Memory>
    requires chunks { All (λ chunk. chunk < length own.now) chunks.now }
    requires part { 0 < part }
    requires aligned { AreAligned table.now }
    requires there { All (λ list. All (λ place. place < length table.now.ids) list) own.now }
    requires wide { length table.now.further ≡ length rows.now.names }
    ensures { IfOk result (λ blocks. AreBegunBlocks table.now own.now chunks.now blocks.items) }
{
    let width = rows.schema().width() - FIRST_COLUMNS as u32;
    let mut blocks = empty_blocks(alloc, table, width, own, chunks)?;
    for turn in 0..rows.len() as usize / part {
        fill_turn(
            table,
            own,
            chunks,
            part.saturating_mul(turn + 1),
            &mut blocks,
        )?;
    }
    Ok(blocks)
}

/// Returns, for each of the chunks, columns without rows, with room for its rows.
fn empty_blocks(
    alloc: Global,
    table: &RowLists,
    width: u32,
    own: &Lists,
    chunks: &[u32],
) -> Result<Vec<RowLists>, Memory>
    requires chunks { All (λ chunk. chunk < length own.now) chunks.now }
    requires wide { length table.now.further ≡ width }
    ensures { IfOk result (λ blocks. AreBegunBlocks table.now own.now chunks.now blocks.items) }
{
    let mut blocks = Vec::with_capacity(alloc, chunks.len())?;
    for chunk in chunks {
        blocks.push_reserved(RowLists::new(alloc, width, own.of(*chunk).len())?);
    }
    Ok(blocks)
}

/// Appends, to the rows of each of the chunks, its next ones whose row numbers are below `end`.
fn fill_turn(
    table: &RowLists,
    own: &Lists,
    chunks: &[u32],
    end: usize,
    blocks: &mut Vec<RowLists>,
) -> Result<(), Memory>
    requires chunks { All (λ chunk. chunk < length own.now) chunks.now }
    requires aligned { AreAligned table.now }
    requires there { All (λ list. All (λ place. place < length table.now.ids) list) own.now }
    requires begun { AreBegunBlocks table.now own.now chunks.now blocks.old.items }
    ensures { OnOk result (AreBegunBlocks table.now own.now chunks.now blocks.new.items) }
{
    for k in 0..chunks.len() {
        fill_before(table, own.of(chunks[k]), end, &mut blocks[k])?;
    }
    Ok(())
}

/// Appends, to the rows of a chunk, its next ones whose row numbers are below `end`.
fn fill_before(
    table: &RowLists,
    places: &[u32],
    end: usize,
    block: &mut RowLists,
) -> Result<(), Memory>
    requires aligned { AreAligned table.now }
    requires there { All (λ place. place < length table.now.ids) places.now }
    requires begun { AreBegun table.now places.now block.old }
    ensures { OnOk result (AreBegun table.now places.now block.new) }
{
    let done = block.ids().len();
    let next = places[done..].partition_point(|place| (*place as usize) < end);
    block.fill(table, places, done + next)
}

/// Returns the index, from 0, of a chunk in an ascending list that contains it.
pub(crate) fn slot_of(chunks: &[u32], chunk: u32) -> usize
    requires ascend { AllPairs (λ a b. a < b) chunks.now }
    requires has { Contains chunks.now chunk }
    ensures there { result < length chunks.now }
    ensures is { get_or chunks.now result 0 ≡ chunk }
{
    chunks.binary_search(&chunk).unwrap()
}
