//! The rows of a multiset: all of them, or the first n.

ghost use Rattle.std.specs.Prelude.{◌≡◌, ◌≤◌, ◌+◌, ◌-◌, ◌^◌, ◌++◌, ◌∷◌, [], All, length, map, IfSome, OnErr, OnOk, Some, None, true, vec_capacity, vec_len};
ghost use Rattle.std.specs.Bool.{OnTrue};
ghost use Rattle.std.specs.BinaryHeap.{heap_items, heap_len, heap_capacity, IsHeap};
ghost use Rattle.answer_rules.specs.Keeps.{KeepsFirst};
ghost use Rattle.answer_rules.specs.Ranks.{row_order};
ghost use Rattle.partial_rows.specs.Multisets.{IsOrdered, IsRowBuffer, IsTooLate, pushed_in, ranks_in, rows_in};
ghost use Rattle.partial_rows.specs.Rows.{IsBehindAll, IsIn, moved, rank_order, row_of};

use crate::cell::Cell;
use crate::heap::{comes_late, offer};
use crate::ranked::Ranked;
use crate::unlimited_rows::{UnlimitedRows, join_all};
use answer_table::lists::append;
use sky_io::Memory;
use std::alloc::Global;
use std::collections::BinaryHeap;

/// The rows that are kept, in any order.
#[derive(Drop)]
pub(crate) enum RowBuffer {
    /// All rows.
    All(UnlimitedRows),
    /// The first `limit` rows.
    First {
        limit: usize,
        heap: BinaryHeap<Ranked>,
    },
}

/// Makes room in the heap for n more rows.
fn reserve_in(heap: &mut BinaryHeap<Ranked>, more: usize) -> Result<(), Memory>
    ensures same { heap_items heap.new ≡ heap_items heap.old }
    ensures room { OnOk result (heap_len heap.new + more ≤ heap_capacity heap.new) }
{
    Ok(heap.reserve(more)?)
}

/// Creates an empty list of rows that keeps the first n, or all.
pub(crate) fn empty_row_buffer(alloc: Global, limit: Option<usize>) -> RowBuffer
    ensures limit { pushed_in result ≡ limit }
    ensures none { ranks_in result ≡ [] }
    ensures ordered { IsOrdered result }
{
    match limit {
        None => RowBuffer::All(UnlimitedRows::new(alloc)),
        Some(limit) => RowBuffer::First {
            limit,
            heap: BinaryHeap::new(alloc),
        },
    }
}

/// Returns whether as many rows as the limit are kept and none of them comes after this one.
pub(crate) fn is_too_late(buffer: &RowBuffer, row: &Ranked) -> bool
    requires { IsOrdered buffer.now }
    ensures late { OnTrue result (IsTooLate row.now buffer.now) }
    ensures reported { IsTooLate row.now buffer.now → result ≡ true }
{
    match buffer {
        RowBuffer::All(_) => false,
        RowBuffer::First { limit, heap } => is_behind_limit(heap, *limit, row),
    }
}

/// Returns whether there are `limit` rows and none of them comes after this one.
fn is_behind_limit(heap: &BinaryHeap<Ranked>, limit: usize, row: &Ranked) -> bool
    requires order { IsHeap rank_order (heap_items heap.now) }
    ensures full { OnTrue result (limit ≤ length (heap_items heap.now)) }
    ensures late { OnTrue result (IsBehindAll row.now (heap_items heap.now)) }
    ensures reported { limit ≤ length (heap_items heap.now) →
        IsBehindAll row.now (heap_items heap.now) → result ≡ true }
{
    if heap.len() < limit {
        return false;
    }
    comes_late(heap, row)
}

/// Adds a row. After `Err` nothing has changed.
pub(crate) fn put(buffer: &mut RowBuffer, row: Ranked) -> Result<(), Memory>
    requires ordered { IsOrdered buffer.old }
    ensures ordered { IsOrdered buffer.new }
    ensures limit { pushed_in buffer.new ≡ pushed_in buffer.old }
    ensures kept { OnOk result (KeepsFirst rank_order (pushed_in buffer.old)
        (ranks_in buffer.old ++ row ∷ []) (ranks_in buffer.new)) }
    ensures same { OnErr result (ranks_in buffer.new ≡ ranks_in buffer.old) }
{
    match buffer {
        RowBuffer::All(unlimited) => unlimited.put(row),
        RowBuffer::First { limit, heap } => put_in(heap, *limit, row),
    }
}

/// Appends the row.
pub(crate) fn put_last(rows: &mut Vec<Ranked>, row: Ranked) -> Result<(), Memory>
    ensures kept { OnOk result (rows.new.items ≡ rows.old.items ++ row ∷ []) }
    ensures same { OnErr result (rows.new.items ≡ rows.old.items) }
{
    Ok(rows.push(row)?)
}

/// Offers the row to the heap.
fn put_in(heap: &mut BinaryHeap<Ranked>, limit: usize, row: Ranked) -> Result<(), Memory>
    requires order { IsHeap rank_order (heap_items heap.old) }
    requires few { length (heap_items heap.old) ≤ limit }
    ensures order { IsHeap rank_order (heap_items heap.new) }
    ensures few { length (heap_items heap.new) ≤ limit }
    ensures kept { OnOk result (KeepsFirst rank_order (Some limit)
        (heap_items heap.old ++ row ∷ []) (heap_items heap.new)) }
    ensures same { OnErr result (heap_items heap.new ≡ heap_items heap.old) }
{
    reserve_in(heap, 1)?;
    offer(heap, limit, row);
    Ok(())
}

/// Returns the number of rows that are kept.
pub(crate) fn count(buffer: &RowBuffer) -> usize
    requires { IsOrdered buffer.now }
    ensures held { result ≡ length (ranks_in buffer.now) }
    ensures few { IfSome (pushed_in buffer.now) (λ n. result ≤ n) }
{
    match buffer {
        RowBuffer::All(unlimited) => unlimited.len(),
        RowBuffer::First { limit: _, heap } => heap.len(),
    }
}

/// Offers the rows to the heap, their values shifted by the given offset. Does not allocate.
fn offer_moved(
    heap: &mut BinaryHeap<Ranked>,
    limit: usize,
    others: &[Ranked],
    by: usize,
    count: usize,
)
    requires order { IsHeap rank_order (heap_items heap.old) }
    requires few { length (heap_items heap.old) ≤ limit }
    requires room { heap_len heap.old + length others.now ≤ heap_capacity heap.old }
    requires there { All (IsIn count) others.now }
    requires fits { by + count ≤ 2 ^ 64 - 1 }
    ensures order { IsHeap rank_order (heap_items heap.new) }
    ensures few { length (heap_items heap.new) ≤ limit }
    ensures kept { KeepsFirst rank_order (Some limit)
        (heap_items heap.old ++ map (moved by) others.now) (heap_items heap.new) }
{
    for other in others {
        offer(heap, limit, other.moved(by));
    }
}

/// Keeps the first `limit` of both lists of rows; the values of the others are appended to these. After `Err` nothing
/// has changed.
pub(crate) fn join_first(
    heap: &mut BinaryHeap<Ranked>,
    limit: usize,
    cells: &mut Vec<Cell>,
    others: &[Ranked],
    more: Vec<Cell>,
) -> Result<(), Memory>
    requires order { IsHeap rank_order (heap_items heap.old) }
    requires few { length (heap_items heap.old) ≤ limit }
    requires mine { All (IsIn (length cells.old.items)) (heap_items heap.old) }
    requires theirs { All (IsIn (length more.items)) others.now }
    ensures order { IsHeap rank_order (heap_items heap.new) }
    ensures few { length (heap_items heap.new) ≤ limit }
    ensures joined { OnOk result (KeepsFirst row_order (Some limit)
        (map (row_of cells.old.items) (heap_items heap.old) ++ map (row_of more.items) others.now)
        (map (row_of cells.new.items) (heap_items heap.new))) }
    ensures there { All (IsIn (length cells.new.items)) (heap_items heap.new) }
    ensures rows { OnErr result (heap_items heap.new ≡ heap_items heap.old) }
    ensures cells { OnErr result (cells.new.items ≡ cells.old.items) }
{
    let by = cells.len();
    let count = more.len();
    reserve_in(heap, others.len())?;
    append(cells, more)?;
    offer_moved(heap, limit, others, by, count);
    Ok(())
}

/// Adds the rows of another multiset of the same limit. After `Err` nothing has changed.
pub(crate) fn join(
    buffer: &mut RowBuffer,
    cells: &mut Vec<Cell>,
    theirs: RowBuffer,
    more: Vec<Cell>,
) -> Result<(), Memory>
    requires mine { IsRowBuffer (length cells.old.items) buffer.old }
    requires theirs { IsRowBuffer (length more.items) theirs }
    requires alike { pushed_in theirs ≡ pushed_in buffer.old }
    ensures mine { IsRowBuffer (length cells.new.items) buffer.new }
    ensures pushed { pushed_in buffer.new ≡ pushed_in buffer.old }
    ensures joined { OnOk result (KeepsFirst row_order (pushed_in buffer.old)
        (rows_in cells.old.items buffer.old ++ rows_in more.items theirs)
        (rows_in cells.new.items buffer.new)) }
    ensures rows { OnErr result (rows_in cells.new.items buffer.new
        ≡ rows_in cells.old.items buffer.old) }
{
    match (buffer, theirs) {
        (RowBuffer::All(unlimited), RowBuffer::All(others)) => join_all(
            unlimited, cells, &others, more,
        ),
        (
            RowBuffer::First { limit, heap },
            RowBuffer::First {
                limit: _,
                heap: others,
            },
        ) => join_first(heap, *limit, cells, others.as_slice(), more),
        _ => unreachable!(),
    }
}
