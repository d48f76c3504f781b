//! The piece of a chunk query of rows with a LIMIT n: a row that comes after n others is skipped.
//!
//! A row is offered to the piece, which answers whether it came too late. The rows after it that are beyond the cutoff
//! are then skipped by their order keys alone (`cutoff`).

ghost use Rattle.std.specs.Prelude.{◌≡◌, ◌+◌, ◌<◌, All, IfOk, OnOk, get_or, length, map, true};
ghost use Rattle.sky_row.specs.Columns.{no_row, objects_at};
ghost use Rattle.sql_bound.specs.declared.query.Shape.TheVariants.{Rows as OfRows};
ghost use Rattle.value_rules.specs.Values.{row};
ghost use Rattle.answer_rules.specs.Pieces.{chunk_value};
ghost use Rattle.answer_rules.specs.SoundChunks.{IsSoundChunk};
ghost use Rattle.partial_rows.specs.Multisets.{out_row};
ghost use Rattle.partial_merge.specs.Joining.{IsNoneOfFirst, IsOfRows, TakesRow};
ghost use Rattle.chunk_row_scan.specs.Computed.{keys_on};
ghost use Rattle.chunk_row_scan.specs.Lines.{IsOfRowsOver};
ghost use Rattle.table_rules.specs.declared.limits.TheConstants.{FIRST_COLUMNS};

use crate::columns::{key_at, rank_at};
use crate::cutoff::{next_within, update};
use crate::line::{fill, is_down};
use answer_rules::ChunkQuery;
use column_block::Block;
use column_eval::ValueList;
use partial_merge::{Piece, Rank};
use sky_io::Memory;
use sky_row::Row;
use sky_vector::Num;
use std::alloc::Global;

/// Returns the piece of the rows with these numbers, which have these order keys. Allocates memory for the values of one
/// row, and for what the piece keeps.
pub(crate) fn first_rows<'w>(
    alloc: Global,
    block: &Block,
    query: &ChunkQuery,
    keys: &Option<ValueList<'_>>,
    places: &[u32],
) -> Result<Piece<'w>, Memory>
    requires shape { query.now.shape ≡ OfRows }
    requires sound { IsSoundChunk (FIRST_COLUMNS + block.now.width) query.now }
    requires there { All (λ place. place < length block.now.objects) places.now }
    requires keys { keys.now
        ≡ keys_on (objects_at block.now.objects places.now) query.now.order }
    ensures { IfOk result (IsOfRowsOver query.now
        (objects_at block.now.objects places.now)) }
{
    // the contract of `len` gives that each row is within its limits
    let _count = block.len();
    let ids = block.ids();
    let down = is_down(&query.order);
    let mut piece = Piece::empty(alloc, query);
    let mut values = Vec::new(alloc);
    let mut cutoff = None;
    let mut i = 0usize;
    while i < places.len() {
        let rank = rank_at(down, keys, ids, places[i], i);
        let late = offer(&mut piece, &mut values, block, query, &rank, places[i])?;
        update(&mut cutoff, late, key_at(keys, i));
        i = next_within(keys, down, &cutoff, i + 1, places.len());
    }
    Ok(piece)
}

/// Pushes the row with this number and this sort key into the piece, unless it comes too late. Returns whether it does,
/// and only if it is none of the first n rows. `values` is a buffer that is reused for each row.
fn offer(
    piece: &mut Piece<'_>,
    values: &mut Vec<Option<Num>>,
    block: &Block,
    query: &ChunkQuery,
    rank: &Rank,
    place: u32,
) -> Result<bool, Memory>
    requires rows { IsOfRows piece.old }
    requires shape { query.now.shape ≡ OfRows }
    requires sound { IsSoundChunk (FIRST_COLUMNS + block.now.width) query.now }
    requires there { place < length block.now.objects }
    ensures taken { OnOk result (TakesRow piece.old (out_row rank.now (map (chunk_value
        (row (get_or block.now.objects place no_row))) query.now.items)) piece.new) }
    ensures late { IfOk result (λ late. late ≡ true → IsNoneOfFirst piece.new rank.now) }
{
    if piece.is_too_late(rank) {
        return Ok(true);
    }
    push_one(piece, values, query, rank, &block.row(place))?;
    Ok(false)
}

/// Pushes the row, which has this sort key, into the piece.
fn push_one(
    piece: &mut Piece<'_>,
    values: &mut Vec<Option<Num>>,
    query: &ChunkQuery,
    rank: &Rank,
    first: &Row,
) -> Result<(), Memory>
    requires rows { IsOfRows piece.old }
    requires shape { query.now.shape ≡ OfRows }
    requires sound { IsSoundChunk (FIRST_COLUMNS + length first.now.further) query.now }
    ensures { OnOk result (TakesRow piece.old (out_row rank.now
        (map (chunk_value (row first.now)) query.now.items)) piece.new) }
{
    fill(values, query.items.as_slice(), first)?;
    piece.push_row(rank, values.as_slice())
}
