//! The piece of a chunk whose selected rows are not grouped here: the values of the one key column.
//!
//! If most rows have a value of their own, the groups of a chunk are nearly as many as its rows, and are searched for one by
//! one among those of the other chunks. So the piece takes the values, and they are grouped at the end. This can be done if
//! there is one key column, if no row has NULL in it, and if each aggregate counts either all rows or none.

ghost use Rattle.std.specs.Prelude.{◌≡◌, ◌+◌, ◌<◌, ◌≤◌, ◌∷◌, [], All, IfOk, IfSome, IsTrue, Some, false, length, map};
ghost use Rattle.std.specs.List.{list_all};
ghost use Rattle.table_rules.specs.declared.limits.TheConstants.{FIRST_COLUMNS, ROWS_MOST};
ghost use Rattle.sky_row.specs.Columns.{objects_at};
ghost use Rattle.sql_bound.specs.declared.query.Shape.TheVariants.{Groups};
ghost use Rattle.value_rules.specs.Sound.{has_col};
ghost use Rattle.value_rules.specs.Values.{row};
ghost use Rattle.answer_rules.specs.Gather.{gather};
ghost use Rattle.answer_rules.specs.Keys.{key_order};
ghost use Rattle.answer_rules.specs.Parts.{add_own_sums, partials_of};
ghost use Rattle.partial_groups.specs.Groups.{MayGather};
ghost use Rattle.partial_groups.specs.Ungrouped.{row_groups};
ghost use Rattle.answer_rules.specs.Pieces.{OfGroups};
ghost use Rattle.chunk_group_scan.specs.Ungrouped.{AreCounted, IsCounted};

use crate::key_values::key_values;
use crate::prefetched_key::cell;
use answer_rules::{ChunkItem, ChunkQuery};
use column_block::Block;
use partial_merge::Piece;
use sky_io::Memory;
use sql_bound::BoundCol;
use std::alloc::Global;

/// The number of selected rows in a sample, whose values suggest whether most values differ.
const SAMPLE: usize = 128;

/// Returns whether the aggregate counts each row or none, if it does either.
fn counts(item: &ChunkItem) -> Option<bool>
    ensures { IfSome result (IsCounted item.now) }
{
    match item {
        ChunkItem::Plain(_) => Some(false),
        ChunkItem::Count => Some(true),
        _ => None,
    }
}

/// Returns of each aggregate whether it counts each row or none, if each does either.
fn all_counts(alloc: Global, items: &[ChunkItem]) -> Result<Option<Vec<bool>>, Memory>
    ensures { IfOk result (λ all. IfSome all (λ counted. AreCounted items.now counted.items)) }
{
    let mut counted = Vec::new(alloc);
    for item in items {
        let Some(one) = counts(item) else {
            return Ok(None);
        };
        counted.push(one)?;
    }
    Ok(Some(counted))
}

/// Returns the value of a selected row in the key column, or 0 if it is NULL or if there is no such row.
fn sampled(block: &Block, key: &BoundCol, places: &[u32], j: usize) -> i64
    requires there { All (λ place. place < length block.now.objects) places.now }
    requires col { IsTrue (has_col (FIRST_COLUMNS + block.now.width) false key.now) }
{
    if j >= places.len() {
        return 0;
    }
    cell(block, key, places[j] as usize).unwrap_or(0)
}

/// Returns the values of some selected rows in the key column, at the same distance from one another.
fn sample_of(block: &Block, key: &BoundCol, places: &[u32]) -> [i64; SAMPLE]
    requires there { All (λ place. place < length block.now.objects) places.now }
    requires col { IsTrue (has_col (FIRST_COLUMNS + block.now.width) false key.now) }
{
    let mut sample = [0i64; SAMPLE];
    let step = places.len() / SAMPLE;
    for i in 0..SAMPLE {
        sample[i] = sampled(block, key, places, step.saturating_mul(i));
    }
    sample
}

/// Returns how many values are equal to the one before, which are all repeats if equal values are adjacent.
fn repeats(values: &[i64]) -> usize {
    let mut count = 0usize;
    for i in 1..values.len() {
        if values[i - 1] == values[i] {
            count = count.saturating_add(1);
        }
    }
    count
}

/// Returns whether at least half of the given number of rows seem to have values of their own, if a sample has this
/// number of repeats.
///
/// If d values are equally frequent, a sample of s rows has about s² / 2d repeats. So d is about s² / 2r for r repeats, where
/// one of them is left out as chance. This holds only if few of the sample are repeats.
fn are_mostly_distinct(repeats: usize, rows: usize) -> bool {
    if repeats > SAMPLE / 4 {
        return false;
    }
    repeats.saturating_sub(1).saturating_mul(rows) <= SAMPLE * SAMPLE
}

/// Returns whether most of the selected rows have values of their own, as a sample suggests.
fn are_varied(block: &Block, key: &BoundCol, places: &[u32]) -> bool
    requires there { All (λ place. place < length block.now.objects) places.now }
    requires col { IsTrue (has_col (FIRST_COLUMNS + block.now.width) false key.now) }
{
    if places.len() < SAMPLE {
        return false;
    }
    let mut sample = sample_of(block, key, places);
    sample.sort_unstable();
    are_mostly_distinct(repeats(&sample), places.len())
}

/// Returns the piece of rows that are not grouped.
fn piece_of_rows<'w>(
    alloc: Global,
    query: &ChunkQuery,
    keys: &[BoundCol],
    counted: Vec<bool>,
    values: Vec<i64>,
) -> Result<Piece<'w>, Memory>
    requires shape { query.now.shape ≡ Groups keys.now }
    requires alike { MayGather [] (row_groups counted.items values.items) }
    ensures { IfOk result (λ piece. piece
        ≡ OfGroups (gather key_order add_own_sums (row_groups counted.items values.items))) }
{
    let mut piece = Piece::empty(alloc, query);
    piece.push_rows(counted, values)?;
    Ok(piece)
}

/// Returns the piece of the selected rows, if there is one key column and its values need not be grouped here.
fn of_column<'w>(
    alloc: Global,
    block: &Block,
    query: &ChunkQuery,
    keys: &[BoundCol],
    key: &BoundCol,
    places: &[u32],
) -> Result<Option<Piece<'w>>, Memory>
    requires shape { query.now.shape ≡ Groups keys.now }
    requires one { keys.now ≡ key.now ∷ [] }
    requires col { IsTrue (has_col (FIRST_COLUMNS + block.now.width) false key.now) }
    requires few { length places.now ≤ ROWS_MOST }
    requires there { All (λ place. place < length block.now.objects) places.now }
    ensures { IfOk result (λ all. IfSome all (λ piece. piece
        ≡ OfGroups (partials_of keys.now query.now.items
        (map row (objects_at block.now.objects places.now))))) }
{
    let Some(counted) = all_counts(alloc, query.items.as_slice())? else {
        return Ok(None);
    };
    if !are_varied(block, key, places) {
        return Ok(None);
    }
    let Some(values) = key_values(alloc, block, key, places)? else {
        return Ok(None);
    };
    let piece = piece_of_rows(alloc, query, keys, counted, values)?;
    Ok(Some(piece))
}

/// Returns the piece of the selected rows, if they need not be grouped here. Allocates memory for what the piece keeps.
pub(crate) fn ungrouped<'w>(
    alloc: Global,
    block: &Block,
    query: &ChunkQuery,
    keys: &[BoundCol],
    places: &[u32],
) -> Result<Option<Piece<'w>>, Memory>
    requires shape { query.now.shape ≡ Groups keys.now }
    requires sound { IsTrue (list_all (has_col (FIRST_COLUMNS + block.now.width) false) keys.now) }
    requires few { length places.now ≤ ROWS_MOST }
    requires there { All (λ place. place < length block.now.objects) places.now }
    ensures { IfOk result (λ all. IfSome all (λ piece. piece
        ≡ OfGroups (partials_of keys.now query.now.items
        (map row (objects_at block.now.objects places.now))))) }
{
    match keys {
        [key] => of_column(alloc, block, query, keys, key, places),
        _ => Ok(None),
    }
}
