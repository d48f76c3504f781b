//! The table of a multiset, which is of rows, of pairs whose values are their own ids, or of both.

ghost use Rattle.std.specs.Prelude.{◌≡◌, ◌++◌, ◌∷◌, [], length, map, IfOk, IsPermutation, None, OnOk};
ghost use Rattle.answer_rules.specs.Finish.{merged_rows};
ghost use Rattle.answer_rules.specs.Keeps.{AreApart};
ghost use Rattle.answer_rules.specs.Ranks.{row_order};
ghost use Rattle.partial_rows.specs.Multisets.{IsMultiset, IsRowBuffer, pushed_in, rows_in};
ghost use Rattle.partial_rows.specs.Pairs.{pair_row, pairs_in};

use crate::buffer_cells::put_row;
use crate::buffer_table::buffer_table;
use crate::cell::Cell;
use crate::id_pair::{pair_cell, pair_sort_key};
use crate::id_pairs::{IdPairs, all_wide};
use crate::pair_table::sorted_pair_table;
use crate::row_buffer::{RowBuffer, count};
use answer_rules::MergePlan;
use answer_table::Table;
use sky_io::Memory;
use std::alloc::Global;

/// Adds the pair to the rows.
fn put_pair(buffer: &mut RowBuffer, cells: &mut Vec<Cell>, pair: &u128) -> Result<(), Memory>
    requires mine { IsRowBuffer (length cells.old.items) buffer.old }
    requires all { pushed_in buffer.old ≡ None }
    ensures mine { IsRowBuffer (length cells.new.items) buffer.new }
    ensures all { pushed_in buffer.new ≡ None }
    ensures put { OnOk result (IsPermutation
        (rows_in cells.old.items buffer.old ++ pair_row pair.now ∷ [])
        (rows_in cells.new.items buffer.new)) }
{
    put_row(
        buffer,
        cells,
        &pair_sort_key(*pair),
        &[pair_cell(*pair, 0), pair_cell(*pair, 1)],
    )
}

/// Adds the pairs to the rows.
fn put_pairs(buffer: &mut RowBuffer, cells: &mut Vec<Cell>, pairs: &[u128]) -> Result<(), Memory>
    requires mine { IsRowBuffer (length cells.old.items) buffer.old }
    requires all { pushed_in buffer.old ≡ None }
    ensures mine { OnOk result (IsRowBuffer (length cells.new.items) buffer.new) }
    ensures put { OnOk result (IsPermutation
        (rows_in cells.old.items buffer.old ++ map pair_row pairs.now)
        (rows_in cells.new.items buffer.new)) }
{
    for pair in pairs {
        put_pair(buffer, cells, pair)?;
    }
    Ok(())
}

/// Returns the table of rows and of pairs. Allocates memory for the table, for the short pairs as wide ones, and for the
/// rows of all pairs.
fn both_table(
    alloc: Global,
    mut buffer: RowBuffer,
    mut cells: Vec<Cell>,
    pairs: IdPairs,
    merge: &MergePlan,
) -> Result<Table, Memory>
    requires mine { IsRowBuffer (length cells.items) buffer }
    requires all { pushed_in buffer ≡ None }
    requires apart { AreApart row_order
        (rows_in cells.items buffer ++ map pair_row (pairs_in pairs)) }
    ensures { IfOk result (λ table. table
        ≡ merged_rows merge.now (rows_in cells.items buffer ++ map pair_row (pairs_in pairs))) }
{
    let wide = all_wide(pairs)?;
    put_pairs(&mut buffer, &mut cells, wide.as_slice())?;
    buffer_table(alloc, buffer, cells.as_slice(), merge)
}

/// Returns the table of a multiset: the first of its rows in order, and the merged items of each.
pub(crate) fn multiset_table(
    alloc: Global,
    buffer: RowBuffer,
    cells: Vec<Cell>,
    pairs: IdPairs,
    merge: &MergePlan,
) -> Result<Table, Memory>
    requires multiset { IsMultiset (length cells.items) buffer (pairs_in pairs) }
    requires apart { AreApart row_order
        (rows_in cells.items buffer ++ map pair_row (pairs_in pairs)) }
    ensures { IfOk result (λ table. table
        ≡ merged_rows merge.now (rows_in cells.items buffer ++ map pair_row (pairs_in pairs))) }
{
    if pairs.is_empty() {
        buffer_table(alloc, buffer, cells.as_slice(), merge)
    } else if count(&buffer) == 0 {
        sorted_pair_table(alloc, pairs, merge)
    } else {
        both_table(alloc, buffer, cells, pairs, merge)
    }
}
