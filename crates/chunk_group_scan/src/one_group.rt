//! The piece of a chunk query of aggregates without GROUP BY.
//!
//! All selected rows are one group, in any order. So no keys are compared, and the values of a single column may be read
//! while they are aggregated.

ghost use Rattle.std.specs.Prelude.{◌≡◌, ◌+◌, ◌<◌, ◌≤◌, [], All, IfOk, length, map};
ghost use Rattle.table_rules.specs.declared.limits.TheConstants.{FIRST_COLUMNS, ROWS_MOST};
ghost use Rattle.sky_row.specs.Columns.{objects_at};
ghost use Rattle.sql_bound.specs.declared.query.Shape.TheVariants.{Groups};
ghost use Rattle.value_rules.specs.Values.{row};
ghost use Rattle.answer_rules.specs.Parts.{partials_of};
ghost use Rattle.answer_rules.specs.Pieces.{OfGroups};
ghost use Rattle.answer_rules.specs.SoundChunks.{IsSoundChunk};

use crate::arguments::{arguments, give_back};
use crate::group_piece::push;
use crate::states::fill;
use answer_rules::ChunkQuery;
use chunk_filter::Scratch;
use column_block::Block;
use partial_merge::Piece;
use sky_io::Memory;
use std::alloc::Global;

/// Returns the piece of the selected rows as one group, whose key has no columns. If no row is selected, there is no
/// group. Allocates memory for what the piece keeps, and for a few machine words an item. Allocates each vector that the
/// scratch does not have with enough room.
pub(crate) fn one_group<'w>(
    alloc: Global,
    block: &Block,
    query: &ChunkQuery,
    places: &[u32],
    scratch: &mut Scratch,
) -> Result<Piece<'w>, Memory>
    requires shape { query.now.shape ≡ Groups [] }
    requires sound { IsSoundChunk (FIRST_COLUMNS + block.now.width) query.now }
    requires few { length places.now ≤ ROWS_MOST }
    requires there { All (λ place. place < length block.now.objects) places.now }
    ensures { IfOk result (λ piece. piece ≡ OfGroups (partials_of [] query.now.items
        (map row (objects_at block.now.objects places.now)))) }
{
    // the contract of `len` gives that each row is within its limits
    let _count = block.len();
    let mut piece = Piece::empty(alloc, query);
    if places.is_empty() {
        return Ok(piece);
    }
    let items = query.items.as_slice();
    let arguments = arguments(alloc, block, items, places, false, scratch)?;
    let key = Vec::new(alloc);
    let mut states = Vec::new(alloc);
    fill(&mut states, items, arguments.as_slice(), 0, places.len())?;
    push(
        alloc,
        &mut piece,
        key.as_slice(),
        places.len(),
        states.as_slice(),
    )?;
    give_back(arguments, scratch);
    Ok(piece)
}
