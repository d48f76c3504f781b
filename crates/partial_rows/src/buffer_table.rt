//! The table of the rows that a multiset keeps: they are sorted, and the first of them are its rows.

ghost use Rattle.std.specs.Prelude.{◌≡◌, ◌≤◌, ◌+◌, ◌++◌, All, IfOk, length, map, vec_capacity, vec_len};
ghost use Rattle.std.specs.BinaryHeap.{heap_items};
ghost use Rattle.answer_rules.specs.Finish.{merged_rows};
ghost use Rattle.answer_rules.specs.Keeps.{AreApart};
ghost use Rattle.answer_rules.specs.Ranks.{row_order};
ghost use Rattle.partial_rows.specs.Multisets.{ranks_in, rows_in};
ghost use Rattle.partial_rows.specs.CompactRows.{all_of, full};
ghost use Rattle.partial_rows.specs.Rows.{IsIn, row_of};

use crate::cell::Cell;
use crate::compact_row::CompactRow;
use crate::ranked::Ranked;
use crate::row_buffer::RowBuffer;
use crate::row_keys::sort_rows;
use crate::row_table::{compact_table, row_table};
use crate::unlimited_rows::UnlimitedRows;
use answer_rules::MergePlan;
use answer_table::Table;
use answer_table::lists::{append, cut, room};
use sky_io::Memory;
use std::alloc::Global;
use std::collections::BinaryHeap;

/// Returns the table of rows in any order. Allocates memory for the table.
fn sorted_table(
    alloc: Global,
    mut rows: Vec<Ranked>,
    cells: &[Cell],
    merge: &MergePlan,
) -> Result<Table, Memory>
    requires there { All (IsIn (length cells.now)) rows.items }
    requires apart { AreApart row_order (map (row_of cells.now) rows.items) }
    ensures { IfOk result (λ table.
        table ≡ merged_rows merge.now (map (row_of cells.now) rows.items)) }
{
    rows.sort_unstable();
    cut(&mut rows, merge.limit);
    row_table(alloc, rows.as_slice(), cells, merge.items.as_slice())
}

/// Returns the table of compact rows of the given width, in any order. Allocates memory for the table, and before that
/// for packed keys.
fn sorted_compact_table(
    alloc: Global,
    mut compact: Vec<CompactRow>,
    width: usize,
    cells: &[Cell],
    merge: &MergePlan,
) -> Result<Table, Memory>
    requires there { All (λ p. IsIn (length cells.now) (full width p)) compact.items }
    requires apart { AreApart row_order
        (map (row_of cells.now) (map (full width) compact.items)) }
    ensures { IfOk result (λ table.
        table ≡ merged_rows merge.now (map (row_of cells.now) (map (full width) compact.items))) }
{
    sort_rows(alloc, &mut compact);
    cut(&mut compact, merge.limit);
    compact_table(
        alloc,
        compact.as_slice(),
        width,
        cells,
        merge.items.as_slice(),
    )
}

/// Appends compact rows of the given width. Does not allocate.
fn put_full(rows: &mut Vec<Ranked>, compact: &[CompactRow], width: usize, cells: usize)
    requires room { vec_len rows.old + length compact.now ≤ vec_capacity rows.old }
    requires there { All (λ p. IsIn cells (full width p)) compact.now }
    ensures { rows.new.items ≡ rows.old.items ++ map (full width) compact.now }
{
    for row in compact {
        rows.push_reserved(row.full(width));
    }
}

/// Returns the compact rows of the given width, followed by the others. Allocates memory for them.
fn all_rows(
    alloc: Global,
    compact: &[CompactRow],
    width: usize,
    rows: Vec<Ranked>,
    cells: usize,
) -> Result<Vec<Ranked>, Memory>
    requires { All (λ p. IsIn cells (full width p)) compact.now }
    ensures { IfOk result (λ all. all.items ≡ map (full width) compact.now ++ rows.items) }
{
    let mut all = room(alloc, compact.len())?;
    put_full(&mut all, compact, width, cells);
    append(&mut all, rows)?;
    Ok(all)
}

/// Returns the table of rows of both kinds. Allocates memory for the table, and for a copy of the rows.
fn mixed_table(
    alloc: Global,
    compact: &[CompactRow],
    width: usize,
    rows: Vec<Ranked>,
    cells: &[Cell],
    merge: &MergePlan,
) -> Result<Table, Memory>
    requires there { All (IsIn (length cells.now)) (map (full width) compact.now ++ rows.items) }
    requires apart { AreApart row_order
        (map (row_of cells.now) (map (full width) compact.now ++ rows.items)) }
    ensures { IfOk result (λ table. table
        ≡ merged_rows merge.now
        (map (row_of cells.now) (map (full width) compact.now ++ rows.items))) }
{
    let all = all_rows(alloc, compact, width, rows, cells.len())?;
    sorted_table(alloc, all, cells, merge)
}

/// Returns the table of all rows of a multiset without a limit. Allocates memory for the table. Unless all
/// rows are compact, allocates memory for a copy of the rows too.
fn unlimited_table(
    alloc: Global,
    unlimited: UnlimitedRows,
    cells: &[Cell],
    merge: &MergePlan,
) -> Result<Table, Memory>
    requires there { All (IsIn (length cells.now)) (all_of unlimited) }
    requires apart { AreApart row_order (map (row_of cells.now) (all_of unlimited)) }
    ensures { IfOk result (λ table.
        table ≡ merged_rows merge.now (map (row_of cells.now) (all_of unlimited))) }
{
    let UnlimitedRows {
        compact,
        width,
        rows,
    } = unlimited;
    if rows.is_empty() {
        sorted_compact_table(alloc, compact, width, cells, merge)
    } else {
        mixed_table(alloc, compact.as_slice(), width, rows, cells, merge)
    }
}

/// Returns the rows of a heap, in any order. Does not allocate.
fn ranks(heap: BinaryHeap<Ranked>) -> Vec<Ranked>
    ensures { result.items ≡ heap_items heap }
{
    heap.into_vec()
}

/// Returns the table of the rows that are kept: the first of them in order, and the merged items of each.
pub(crate) fn buffer_table(
    alloc: Global,
    buffer: RowBuffer,
    cells: &[Cell],
    merge: &MergePlan,
) -> Result<Table, Memory>
    requires there { All (IsIn (length cells.now)) (ranks_in buffer) }
    requires apart { AreApart row_order (rows_in cells.now buffer) }
    ensures { IfOk result (λ table. table ≡ merged_rows merge.now (rows_in cells.now buffer)) }
{
    match buffer {
        RowBuffer::All(unlimited) => unlimited_table(alloc, unlimited, cells, merge),
        RowBuffer::First { limit: _, heap } => sorted_table(alloc, ranks(heap), cells, merge),
    }
}
