//! The piece of a grouped chunk query.
//!
//! Adjacent rows with the same key are a run, and a run is pushed into the piece as one group. Without keys all rows are
//! one group (`one_group`).

ghost use Rattle.std.specs.Prelude.{◌≡◌, ◌+◌, ◌++◌, ◌<◌, ◌≤◌, ◌∷◌, [], All, IfOk, IsTrue, OnOk, false, get_or, length, map};
ghost use Rattle.std.specs.List.{list_all};
ghost use Rattle.table_rules.specs.declared.limits.TheConstants.{FIRST_COLUMNS, ROWS_MOST};
ghost use Rattle.sky_row.specs.Columns.{no_row, objects_at};
ghost use Rattle.sql_bound.specs.declared.query.Shape.TheVariants.{Groups};
ghost use Rattle.value_rules.specs.Sound.{has_col};
ghost use Rattle.value_rules.specs.Values.{row};
ghost use Rattle.answer_rules.specs.Keys.{key_of};
ghost use Rattle.answer_rules.specs.Parts.{partials_of};
ghost use Rattle.answer_rules.specs.Pieces.{OfGroups};
ghost use Rattle.chunk_group_scan.specs.Prefetched.{IsPrefetched};
ghost use Rattle.answer_rules.specs.SoundChunks.{IsSoundChunk};
ghost use Rattle.partial_groups.specs.Groups.{group_by};
ghost use Rattle.partial_merge.specs.Joining.{MayTakeGroup, with_group};

use crate::arguments::{arguments, give_back};
use crate::key_order::by_key;
use crate::one_group::one_group;
use crate::prefetched_key::{cell, copied, first_value};
use crate::runs::{run_end, starts};
use crate::states::fill;
use crate::ungrouped::ungrouped;
use answer_rules::ChunkQuery;
use chunk_filter::Scratch;
use column_block::Block;
use partial_merge::{Key, Piece, Tally};
use sky_io::Memory;
use sql_bound::BoundCol;
use std::alloc::Global;

/// Returns the piece of the groups of the selected rows. Allocates memory for what the piece keeps, and for a few
/// machine words a key and item. Allocates each vector that the scratch does not have with enough room.
pub fn piece_of_groups<'w>(
    alloc: Global,
    block: &Block,
    query: &ChunkQuery,
    keys: &[BoundCol],
    places: &[u32],
    scratch: &mut Scratch,
) -> Result<Piece<'w>, Memory>
    requires shape { query.now.shape ≡ Groups keys.now }
    requires sound { IsSoundChunk (FIRST_COLUMNS + block.now.width) query.now }
    requires small { length block.now.objects ≤ ROWS_MOST }
    requires few { length places.now ≤ ROWS_MOST }
    requires there { All (λ place. place < length block.now.objects) places.now }
    ensures { IfOk result (λ piece. piece ≡ OfGroups (partials_of keys.now query.now.items
        (map row (objects_at block.now.objects places.now)))) }
{
    match keys {
        [] => one_group(alloc, block, query, places, scratch),
        _ => by_keys(alloc, block, query, keys, places, scratch),
    }
}

/// Returns the piece of the groups of the selected rows. If most of them would be groups of their own, they are not
/// grouped here (`ungrouped`).
fn by_keys<'w>(
    alloc: Global,
    block: &Block,
    query: &ChunkQuery,
    keys: &[BoundCol],
    places: &[u32],
    scratch: &mut Scratch,
) -> Result<Piece<'w>, Memory>
    requires shape { query.now.shape ≡ Groups keys.now }
    requires sound { IsSoundChunk (FIRST_COLUMNS + block.now.width) query.now }
    requires small { length block.now.objects ≤ ROWS_MOST }
    requires few { length places.now ≤ ROWS_MOST }
    requires there { All (λ place. place < length block.now.objects) places.now }
    ensures { IfOk result (λ piece. piece ≡ OfGroups (partials_of keys.now query.now.items
        (map row (objects_at block.now.objects places.now)))) }
{
    match ungrouped(alloc, block, query, keys, places)? {
        Some(piece) => Ok(piece),
        None => in_order(alloc, block, query, keys, places, scratch),
    }
}

/// Returns the piece of the groups of the selected rows, after it has made rows with the same key adjacent.
fn in_order<'w>(
    alloc: Global,
    block: &Block,
    query: &ChunkQuery,
    keys: &[BoundCol],
    places: &[u32],
    scratch: &mut Scratch,
) -> Result<Piece<'w>, Memory>
    requires shape { query.now.shape ≡ Groups keys.now }
    requires sound { IsSoundChunk (FIRST_COLUMNS + block.now.width) query.now }
    requires small { length block.now.objects ≤ ROWS_MOST }
    requires few { length places.now ≤ ROWS_MOST }
    requires there { All (λ place. place < length block.now.objects) places.now }
    ensures { IfOk result (λ piece. piece ≡ OfGroups (partials_of keys.now query.now.items
        (map row (objects_at block.now.objects places.now)))) }
{
    let order = by_key(block, keys, places, scratch)?;
    let piece = group_piece(alloc, block, query, keys, order.as_slice(), scratch)?;
    scratch.places.give(order);
    Ok(piece)
}

/// Returns the piece of the groups of the selected rows, which are in any order. A key has a group for each of its
/// runs, and the piece adds them up.
fn group_piece<'w>(
    alloc: Global,
    block: &Block,
    query: &ChunkQuery,
    keys: &[BoundCol],
    places: &[u32],
    scratch: &mut Scratch,
) -> Result<Piece<'w>, Memory>
    requires shape { query.now.shape ≡ Groups keys.now }
    requires sound { IsSoundChunk (FIRST_COLUMNS + block.now.width) query.now }
    requires few { length places.now ≤ ROWS_MOST }
    requires there { All (λ place. place < length block.now.objects) places.now }
    ensures { IfOk result (λ piece. piece ≡ OfGroups (partials_of keys.now query.now.items
        (map row (objects_at block.now.objects places.now)))) }
{
    // the contract of `len` gives that each row is within its limits
    let _count = block.len();
    let starts = starts(block, keys, places, scratch)?;
    let copied = copied(block, keys, places, starts.as_slice(), scratch)?;
    let items = query.items.as_slice();
    let arguments = arguments(alloc, block, items, places, true, scratch)?;
    let mut piece = Piece::empty(alloc, query);
    let mut cells = Vec::new(alloc);
    let mut states = Vec::new(alloc);
    let mut from = 0usize;
    while from < places.len() {
        let to = run_end(starts.as_slice(), from);
        fill_key(&mut cells, block, keys, places, copied.as_slice(), from)?;
        fill(
            &mut states,
            query.items.as_slice(),
            arguments.as_slice(),
            from,
            to,
        )?;
        push(
            alloc,
            &mut piece,
            cells.as_slice(),
            to - from,
            states.as_slice(),
        )?;
        from = to;
    }
    scratch.flags.give(starts);
    scratch.cells.give(copied);
    give_back(arguments, scratch);
    Ok(piece)
}

/// Pushes a group with this key and the given number of rows into the piece.
pub(crate) fn push(
    alloc: Global,
    piece: &mut Piece<'_>,
    cells: &[Option<i64>],
    rows: usize,
    states: &[Tally],
) -> Result<(), Memory>
    requires few { rows ≤ ROWS_MOST }
    requires may { MayTakeGroup piece.old (group_by cells.now rows states.now) }
    ensures { OnOk result (piece.new
        ≡ with_group piece.old (group_by cells.now rows states.now)) }
{
    let key = Key::from_slice(alloc, cells)?;
    piece.push_group(key, rows as u32, states)
}

/// Replaces the values in `cells` by the key of the row at this index; `None` is NULL. `copied` holds the values of the
/// first key column, or is empty.
fn fill_key(
    cells: &mut Vec<Option<i64>>,
    block: &Block,
    keys: &[BoundCol],
    places: &[u32],
    copied: &[Option<i64>],
    j: usize,
) -> Result<(), Memory>
    requires there { All (λ place. place < length block.now.objects) places.now }
    requires sound { IsTrue (list_all (has_col (FIRST_COLUMNS + block.now.width) false) keys.now) }
    requires at { j < length places.now }
    requires copied { IsPrefetched keys.now (objects_at block.now.objects places.now) copied.now }
    ensures { OnOk result (cells.new.items
        ≡ key_of keys.now (row (get_or (objects_at block.now.objects places.now) j no_row))) }
{
    cells.clear();
    match keys {
        [] => Ok(()),
        [_, rest @ ..] => {
            push_cell(cells, first_value(block, keys, places, copied, j))?;
            push_cells(cells, block, rest, places[j])
        }
    }
}

/// Appends the values of the row with this number in these columns.
fn push_cells(
    cells: &mut Vec<Option<i64>>,
    block: &Block,
    keys: &[BoundCol],
    place: u32,
) -> Result<(), Memory>
    requires there { place < length block.now.objects }
    requires sound { IsTrue (list_all (has_col (FIRST_COLUMNS + block.now.width) false) keys.now) }
    ensures { OnOk result (cells.new.items
        ≡ cells.old.items ++ key_of keys.now (row (get_or block.now.objects place no_row))) }
{
    for key in keys {
        push_cell(cells, cell(block, key, place as usize))?;
    }
    Ok(())
}

/// Appends the value.
fn push_cell(cells: &mut Vec<Option<i64>>, value: Option<i64>) -> Result<(), Memory>
    ensures { OnOk result (cells.new.items ≡ cells.old.items ++ value ∷ []) }
{
    Ok(cells.push(value)?)
}
