//! The first n of the rows that were offered, as a heap whose top is the last of them.

ghost use Rattle.std.specs.Prelude.{◌≡◌, ◌≤◌, ◌<◌, ◌+◌, ◌++◌, ◌∷◌, [], length, not, Some, true, IsPermutation};
ghost use Rattle.std.specs.Bool.{OnTrue, OnFalse};
ghost use Rattle.std.specs.Ordering.{is_lt};
ghost use Rattle.std.specs.BinaryHeap.{heap_items, heap_len, heap_capacity, IsHeap};
ghost use Rattle.answer_rules.specs.Keeps.{KeepsFirst};
ghost use Rattle.partial_rows.specs.Rows.{rank_order, IsBehindAll, IsUpToFirst};

use crate::ranked::Ranked;
use std::cmp::Ordering;
use std::collections::BinaryHeap;

/// Adds the row if it is one of the first `limit` rows. If there were `limit` rows before, the last of them is dropped.
/// Does not allocate.
pub(crate) fn offer(heap: &mut BinaryHeap<Ranked>, limit: usize, row: Ranked)
    requires order { IsHeap rank_order (heap_items heap.old) }
    requires few { length (heap_items heap.old) ≤ limit }
    requires room { heap_len heap.old < heap_capacity heap.old }
    ensures order { IsHeap rank_order (heap_items heap.new) }
    ensures few { length (heap_items heap.new) ≤ limit }
    ensures grown { heap_len heap.new ≤ heap_len heap.old + 1 }
    ensures capacity { heap_capacity heap.old ≤ heap_capacity heap.new }
    ensures kept { KeepsFirst rank_order (Some limit) (heap_items heap.old ++ row ∷ [])
        (heap_items heap.new) }
{
    if heap.len() < limit {
        add(heap, row);
        return;
    }
    if comes_late(heap, &row) {
        return;
    }
    replace_last(heap, row);
}

/// Returns whether no row of the heap comes after this one.
pub(crate) fn comes_late(heap: &BinaryHeap<Ranked>, row: &Ranked) -> bool
    requires order { IsHeap rank_order (heap_items heap.now) }
    ensures late { OnTrue result (IsBehindAll row.now (heap_items heap.now)) }
    ensures reported { IsBehindAll row.now (heap_items heap.now) → result ≡ true }
    ensures before { OnFalse result (IsUpToFirst row.now (heap_items heap.now)) }
    ensures some { OnFalse result (0 < heap_len heap.now) }
{
    match heap.peek() {
        None => true,
        Some(last) => is_behind(row, last),
    }
}

/// Returns whether the row does not come before the other one.
fn is_behind(row: &Ranked, other: &Ranked) -> bool
    ensures { result ≡ not (is_lt (rank_order row.now other.now)) }
{
    row.cmp(other) != Ordering::Less
}

/// Replaces the last row by this one, which is sifted down from the top when `last` is dropped. Does not allocate.
fn replace_last(heap: &mut BinaryHeap<Ranked>, row: Ranked)
    requires order { IsHeap rank_order (heap_items heap.old) }
    requires some { 0 < heap_len heap.old }
    requires before { IsUpToFirst row (heap_items heap.old) }
    ensures order { IsHeap rank_order (heap_items heap.new) }
    ensures same { heap_len heap.new ≡ heap_len heap.old }
    ensures capacity { heap_capacity heap.old ≤ heap_capacity heap.new }
    ensures kept { KeepsFirst rank_order (Some (heap_len heap.old))
        (heap_items heap.old ++ row ∷ []) (heap_items heap.new) }
{
    let mut last = heap.peek_mut().unwrap();
    *last = row;
}

/// Adds the row.
fn add(heap: &mut BinaryHeap<Ranked>, row: Ranked)
    requires order { IsHeap rank_order (heap_items heap.old) }
    requires room { heap_len heap.old < heap_capacity heap.old }
    ensures order { IsHeap rank_order (heap_items heap.new) }
    ensures same { IsPermutation (row ∷ heap_items heap.old) (heap_items heap.new) }
    ensures grown { heap_len heap.new ≡ heap_len heap.old + 1 }
    ensures capacity { heap_capacity heap.old ≤ heap_capacity heap.new }
{
    match heap.push(row) {
        Ok(()) => {}
        Err(_) => unreachable!(),
    }
}
