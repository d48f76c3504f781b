//! Vacuuming a multiset: removing the values of rows that were dropped.
//!
//! With a limit a multiset has few rows, but its list has the values of all rows that it ever kept. When the list has
//! doubled, the values of the remaining rows are copied into a new one, and the old one is freed. Nothing changes until
//! the copy is complete.

ghost use Rattle.std.specs.Prelude.{◌≡◌, ◌≤◌, ◌+◌, ◌-◌, ◌++◌, ◌∷◌, [], All, length, map, slice_range, vec_capacity, vec_len, OnErr, OnOk, Some};
ghost use Rattle.std.specs.BinaryHeap.{heap_items, IsHeap};
ghost use Rattle.answer_rules.specs.Keeps.{KeepsFirst};
ghost use Rattle.answer_rules.specs.Ranks.{row_order};
ghost use Rattle.partial_rows.specs.Multisets.{IsRowBuffer, pushed_in, ranks_in, rows_in};
ghost use Rattle.partial_rows.specs.Rows.{IsIn, placed, rank_order, row_of};

use crate::cell::Cell;
use crate::ranked::Ranked;
use crate::row_buffer::{RowBuffer, join_first, put_last};
use crate::row_table::cells_of;
use answer_table::lists::reserve;
use sky_io::Memory;
use std::alloc::Global;
use std::collections::BinaryHeap;

/// Appends copies of the values. Does not allocate.
fn put_reserved(cells: &mut Vec<Cell>, values: &[Cell])
    requires { vec_len cells.old + length values.now ≤ vec_capacity cells.old }
    ensures { cells.new.items ≡ cells.old.items ++ values.now }
{
    for value in values {
        cells.push_reserved(value.copy());
    }
}

/// Appends copies of the values.
fn put_copies(cells: &mut Vec<Cell>, values: &[Cell]) -> Result<(), Memory>
    ensures { OnOk result (cells.new.items ≡ cells.old.items ++ values.now) }
{
    reserve(cells, values.len())?;
    put_reserved(cells, values);
    Ok(())
}

/// Appends the row, and copies of its values.
fn put_row(
    rows: &mut Vec<Ranked>,
    live: &mut Vec<Cell>,
    row: &Ranked,
    cells: &[Cell],
) -> Result<(), Memory>
    requires { IsIn (length cells.now) row.now }
    ensures cells { OnOk result (live.new.items
        ≡ live.old.items ++ slice_range cells.now row.now.from row.now.to) }
    ensures rows { OnOk result (rows.new.items
        ≡ rows.old.items ++ placed (length live.old.items) row.now ∷ []) }
{
    let from = live.len();
    put_copies(live, cells_of(cells, row))?;
    put_last(rows, row.placed(from))?;
    Ok(())
}

/// Appends the rows, and copies of their values.
fn put_rows(
    rows: &mut Vec<Ranked>,
    live: &mut Vec<Cell>,
    others: &[Ranked],
    cells: &[Cell],
) -> Result<(), Memory>
    requires there { All (IsIn (length cells.now)) others.now }
    requires mine { All (IsIn (length live.old.items)) rows.old.items }
    ensures same { OnOk result (map (row_of live.new.items) rows.new.items
        ≡ map (row_of live.old.items) rows.old.items ++ map (row_of cells.now) others.now) }
    ensures mine { OnOk result (All (IsIn (length live.new.items)) rows.new.items) }
{
    for other in others {
        put_row(rows, live, other, cells)?;
    }
    Ok(())
}

/// Leaves only the values of the heap's rows. After `Err` nothing has changed.
fn vacuum_heap(
    alloc: Global,
    heap: &mut BinaryHeap<Ranked>,
    limit: usize,
    cells: &mut Vec<Cell>,
) -> Result<(), Memory>
    requires order { IsHeap rank_order (heap_items heap.old) }
    requires few { length (heap_items heap.old) ≤ limit }
    requires mine { All (IsIn (length cells.old.items)) (heap_items heap.old) }
    ensures order { IsHeap rank_order (heap_items heap.new) }
    ensures few { length (heap_items heap.new) ≤ limit }
    ensures mine { All (IsIn (length cells.new.items)) (heap_items heap.new) }
    ensures kept { OnOk result (KeepsFirst row_order (Some limit)
        (map (row_of cells.old.items) (heap_items heap.old))
        (map (row_of cells.new.items) (heap_items heap.new))) }
    ensures rows { OnErr result (heap_items heap.new ≡ heap_items heap.old) }
    ensures cells { OnErr result (cells.new.items ≡ cells.old.items) }
{
    let mut rows = Vec::new(alloc);
    let mut live = Vec::new(alloc);
    put_rows(&mut rows, &mut live, heap.as_slice(), cells.as_slice())?;
    let mut left = BinaryHeap::new(alloc);
    let mut fresh = Vec::new(alloc);
    join_first(&mut left, limit, &mut fresh, rows.as_slice(), live)?;
    *heap = left;
    *cells = fresh;
    Ok(())
}

/// Leaves only the values of the rows that are kept. If all rows are kept, so are all values. After `Err` nothing has
/// changed.
fn vacuum(alloc: Global, buffer: &mut RowBuffer, cells: &mut Vec<Cell>) -> Result<(), Memory>
    requires mine { IsRowBuffer (length cells.old.items) buffer.old }
    ensures mine { IsRowBuffer (length cells.new.items) buffer.new }
    ensures pushed { pushed_in buffer.new ≡ pushed_in buffer.old }
    ensures kept { OnOk result (KeepsFirst row_order (pushed_in buffer.old)
        (rows_in cells.old.items buffer.old) (rows_in cells.new.items buffer.new)) }
    ensures rows { OnErr result (ranks_in buffer.new ≡ ranks_in buffer.old) }
    ensures cells { OnErr result (cells.new.items ≡ cells.old.items) }
{
    match buffer {
        RowBuffer::All(_) => Ok(()),
        RowBuffer::First { limit, heap } => vacuum_heap(alloc, heap, *limit, cells),
    }
}

/// Vacuums a multiset that has at least twice as many values as after the last vacuum, and returns how many it then has.
/// If memory is short, the next call tries again.
pub(crate) fn vacuum_if_doubled(
    alloc: Global,
    buffer: &mut RowBuffer,
    cells: &mut Vec<Cell>,
    vacuumed: usize,
) -> usize
    requires mine { IsRowBuffer (length cells.old.items) buffer.old }
    ensures mine { IsRowBuffer (length cells.new.items) buffer.new }
    ensures pushed { pushed_in buffer.new ≡ pushed_in buffer.old }
    ensures kept { KeepsFirst row_order (pushed_in buffer.old) (rows_in cells.old.items buffer.old)
        (rows_in cells.new.items buffer.new) }
{
    if cells.len() / 2 < vacuumed {
        return vacuumed;
    }
    match vacuum(alloc, buffer, cells) {
        Ok(()) => cells.len(),
        Err(_) => vacuumed,
    }
}
