//! The piece of a chunk.

ghost use Rattle.std.specs.Prelude.{◌≡◌, ◌∷◌, [], ◌+◌, ◌<◌, ◌≤◌, All, IfOk, length, true, false};
ghost use Rattle.table_rules.specs.Objects.{IdsAscend};
ghost use Rattle.table_rules.specs.declared.limits.TheConstants.{FIRST_COLUMNS, ROWS_MOST};
ghost use Rattle.sky_rules.specs.Limits.{IsSky};
ghost use Rattle.sky_rules.specs.Partition.{chunk_count};
ghost use Rattle.chunk_rules.specs.Filled.{is_filled};
ghost use Rattle.answer_rules.specs.Coverage.{AreInTheSky};
ghost use Rattle.answer_rules.specs.Pieces.{PieceFor};
ghost use Rattle.answer_rules.specs.SoundChunks.{IsSoundChunk};
ghost use Rattle.sky_row.specs.Columns.{objects_at};
ghost use Rattle.value_rules.specs.Sound.{is_paired};
ghost use Rattle.chunk_scan.specs.Lines.{IsPieceOver};

use answer_rules::ChunkQuery;
use chunk_filter::Scratch;
use chunk_filter::selection::selection;
use chunk_group_scan::group_piece::piece_of_groups;
use chunk_row_scan::row_piece::row_piece;
use chunk_store::Store;
use column_block::Block;
use partial_merge::Piece;
use sky_io::Memory;
use sql_bound::Shape;
use std::alloc::Global;

/// Returns what the query finds in the chunk alone, whatever the scratch was used for before. Allocates memory for what
/// the piece keeps, and for a few machine words a key and item. Allocates each vector that the scratch does not have
/// with enough room.
pub fn scan<'w>(
    alloc: Global,
    store: &'w Store,
    chunk: u32,
    query: &ChunkQuery,
    scratch: &mut Scratch,
) -> Result<Piece<'w>, Memory>
    requires there { chunk < chunk_count store.now.plan }
    requires filled { is_filled store.now.plan store.now.rows.objects chunk ≡ true }
    requires rows { is_paired query.now.shape ≡ false }
    requires sound { IsSoundChunk (FIRST_COLUMNS + length store.now.rows.names) query.now }
    ensures { IfOk result (PieceFor store.now.plan store.now.rows.objects query.now (chunk ∷ [])) }
{
    know(store);
    let block = store.block(chunk);
    let places = selection(block, query.conds.as_slice(), scratch)?;
    let piece = piece_at(alloc, block, query, places.as_slice(), scratch)?;
    scratch.places.give(places);
    Ok(piece)
}

/// Makes invariants of a store visible to contracts: its plan is within the limits, and its rows are in the sky, at
/// most `ROWS_MOST`, and in ascending id. Does not allocate.
fn know(store: &Store)
    ensures plan { IsSky store.now.plan }
    ensures rows { AreInTheSky store.now.rows.objects }
    ensures few { length store.now.rows.objects ≤ ROWS_MOST }
    ensures ascend { IdsAscend store.now.rows.objects }
{
    let _ = store.plan().chunks();
    let _ = store.rows().len();
}

/// Returns the piece of the selected rows of the chunk.
fn piece_at<'w>(
    alloc: Global,
    block: &Block,
    query: &ChunkQuery,
    places: &[u32],
    scratch: &mut Scratch,
) -> Result<Piece<'w>, Memory>
    requires rows { is_paired query.now.shape ≡ false }
    requires sound { IsSoundChunk (FIRST_COLUMNS + block.now.width) query.now }
    requires small { length block.now.objects ≤ ROWS_MOST }
    requires few { length places.now ≤ ROWS_MOST }
    requires there { All (λ place. place < length block.now.objects) places.now }
    ensures { IfOk result (IsPieceOver query.now (objects_at block.now.objects places.now)) }
{
    match &query.shape {
        Shape::Groups { keys } => {
            piece_of_groups(alloc, block, query, keys.as_slice(), places, scratch)
        },
        _ => row_piece(alloc, block, query, places, scratch),
    }
}
