//! The piece of a chunk query of rows without a LIMIT, which keeps each row.

ghost use Rattle.std.specs.Prelude.{◌≡◌, ◌+◌, ◌<◌, All, IfOk, OnOk, length};
ghost use Rattle.column_lists.specs.Columns.{cells_in};
ghost use Rattle.sky_row.specs.Columns.{objects_at};
ghost use Rattle.sql_bound.specs.declared.query.Shape.TheVariants.{Rows as OfRows};
ghost use Rattle.answer_rules.specs.SoundChunks.{IsSoundChunk};
ghost use Rattle.partial_rows.specs.Multisets.{out_row};
ghost use Rattle.partial_merge.specs.Joining.{IsOfRows, TakesRow};
ghost use Rattle.chunk_row_scan.specs.Computed.{AreReady, keys_on};
ghost use Rattle.chunk_row_scan.specs.Lines.{IsOfRowsOver};
ghost use Rattle.table_rules.specs.declared.limits.TheConstants.{FIRST_COLUMNS};

use crate::columns::{columns, fill_at, give_back, rank_at};
use crate::line::is_down;
use answer_rules::ChunkQuery;
use chunk_filter::Scratch;
use column_block::Block;
use column_eval::ValueList;
use partial_merge::{Piece, Rank};
use sky_io::Memory;
use sky_vector::Num;
use std::alloc::Global;

/// Returns the piece of the selected rows, which have these order keys. Allocates memory for what the piece keeps, and
/// for a few machine words an item. Allocates each vector that the scratch does not have with enough room.
pub(crate) fn all_rows<'w>(
    alloc: Global,
    block: &Block,
    query: &ChunkQuery,
    keys: &Option<ValueList<'_>>,
    places: &[u32],
    scratch: &mut Scratch,
) -> Result<Piece<'w>, Memory>
    requires shape { query.now.shape ≡ OfRows }
    requires sound { IsSoundChunk (FIRST_COLUMNS + block.now.width) query.now }
    requires there { All (λ place. place < length block.now.objects) places.now }
    requires keys { keys.now
        ≡ keys_on (objects_at block.now.objects places.now) query.now.order }
    ensures { IfOk result (IsOfRowsOver query.now
        (objects_at block.now.objects places.now)) }
{
    // the contract of `len` gives that each row is within its limits
    let _count = block.len();
    let columns = columns(alloc, block, query.items.as_slice(), places, scratch)?;
    let ids = block.ids();
    let down = is_down(&query.order);
    let mut piece = Piece::empty(alloc, query);
    let mut values = Vec::new(alloc);
    for i in 0..places.len() {
        let rank = rank_at(down, keys, ids, places[i], i);
        push_at(&mut piece, &mut values, columns.as_slice(), &rank, i)?;
    }
    give_back(columns, scratch);
    Ok(piece)
}

/// Pushes the row with this number and this sort key into the piece. `values` is a buffer that is reused for each row.
fn push_at(
    piece: &mut Piece<'_>,
    values: &mut Vec<Option<Num>>,
    columns: &[ValueList<'_>],
    rank: &Rank,
    i: usize,
) -> Result<(), Memory>
    requires rows { IsOfRows piece.old }
    requires ready { AreReady i columns.now }
    ensures { OnOk result (TakesRow piece.old (out_row rank.now (cells_in columns.now i))
        piece.new) }
{
    fill_at(values, columns, i)?;
    piece.push_row(rank, values.as_slice())
}
