//! The piece of a chunk query of rows: that of all rows (`all_rows`), or that of the first rows if there is a LIMIT
//! (`first_rows`), made of `candidates` alone if they are found. Order keys are computed first, a column at a time, and
//! anew for candidates.

ghost use Rattle.std.specs.Prelude.{◌≡◌, ◌+◌, ◌<◌, All, IfOk, length};
ghost use Rattle.sky_row.specs.Columns.{objects_at};
ghost use Rattle.sql_bound.specs.declared.query.Shape.TheVariants.{Rows as OfRows};
ghost use Rattle.answer_rules.specs.SoundChunks.{IsSoundChunk};
ghost use Rattle.chunk_row_scan.specs.Computed.{keys_on};
ghost use Rattle.chunk_row_scan.specs.Lines.{IsOfRowsOver};
ghost use Rattle.table_rules.specs.declared.limits.TheConstants.{FIRST_COLUMNS};

use crate::all_rows::all_rows;
use crate::candidates::candidates;
use crate::columns::{give_keys_back, keys};
use crate::first_rows::first_rows;
use answer_rules::ChunkQuery;
use chunk_filter::Scratch;
use column_block::Block;
use column_eval::ValueList;
use partial_merge::Piece;
use sky_io::Memory;
use std::alloc::Global;

/// Returns the piece of the selected rows of the chunk. Allocates memory for what the piece keeps, and for a few
/// machine words an item. Allocates each vector that the scratch does not have with enough room.
pub fn row_piece<'w>(
    alloc: Global,
    block: &Block,
    query: &ChunkQuery,
    places: &[u32],
    scratch: &mut Scratch,
) -> Result<Piece<'w>, Memory>
    requires shape { query.now.shape ≡ OfRows }
    requires sound { IsSoundChunk (FIRST_COLUMNS + block.now.width) query.now }
    requires there { All (λ place. place < length block.now.objects) places.now }
    ensures { IfOk result (IsOfRowsOver query.now
        (objects_at block.now.objects places.now)) }
{
    let keys = keys(block, &query.order, places, scratch)?;
    let piece = match query.limit {
        None => all_rows(alloc, block, query, &keys, places, scratch)?,
        Some(_) => limited_piece(alloc, block, query, &keys, places, scratch)?,
    };
    give_keys_back(keys, scratch);
    Ok(piece)
}

/// Returns the piece of the selected rows, which have these order keys, for a query with a LIMIT.
fn limited_piece<'w>(
    alloc: Global,
    block: &Block,
    query: &ChunkQuery,
    keys: &Option<ValueList<'_>>,
    places: &[u32],
    scratch: &mut Scratch,
) -> Result<Piece<'w>, Memory>
    requires shape { query.now.shape ≡ OfRows }
    requires sound { IsSoundChunk (FIRST_COLUMNS + block.now.width) query.now }
    requires there { All (λ place. place < length block.now.objects) places.now }
    requires keys { keys.now
        ≡ keys_on (objects_at block.now.objects places.now) query.now.order }
    ensures { IfOk result (IsOfRowsOver query.now
        (objects_at block.now.objects places.now)) }
{
    match candidates(block, query, keys, places, scratch)? {
        None => first_rows(alloc, block, query, keys, places),
        Some(listed) => {
            let piece = piece_of_candidates(alloc, block, query, listed.as_slice(), scratch)?;
            scratch.places.give(listed);
            Ok(piece)
        }
    }
}

/// Returns the piece of the rows with these numbers, for a query with a LIMIT. Computes their order keys.
fn piece_of_candidates<'w>(
    alloc: Global,
    block: &Block,
    query: &ChunkQuery,
    listed: &[u32],
    scratch: &mut Scratch,
) -> Result<Piece<'w>, Memory>
    requires shape { query.now.shape ≡ OfRows }
    requires sound { IsSoundChunk (FIRST_COLUMNS + block.now.width) query.now }
    requires there { All (λ place. place < length block.now.objects) listed.now }
    ensures { IfOk result (IsOfRowsOver query.now (objects_at block.now.objects listed.now)) }
{
    let keys = keys(block, &query.order, listed, scratch)?;
    let piece = first_rows(alloc, block, query, &keys, listed)?;
    give_keys_back(keys, scratch);
    Ok(piece)
}
