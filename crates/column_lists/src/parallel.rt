//! Gathering by threads: each gathers some of the columns, so no value is moved twice.
ghost use Rattle.std.specs.Prelude.{◌≡◌, ◌<◌, ◌≤◌, [], IfOk, All, drop, get_or, length, map, take, None};
ghost use Rattle.std.specs.Thread.{IsSync};
ghost use Rattle.column_lists.specs.Columns.{IsGathered};

use crate::column::Column;
use crate::further::columns_at;
use crate::lists::Lists;
use crate::places::gather;
use sky_io::Memory;
use std::alloc::Global;
use std::thread::{Threads, join};
use table_rules::limits::FIRST_COLUMNS;

/// Returns the number of threads for the first columns, about their part of all columns, and that for the extra ones.
fn shares(threads: u32, further: usize) -> (u32, u32) {
    let all = FIRST_COLUMNS.saturating_add(further);
    let first = (threads as usize).saturating_mul(FIRST_COLUMNS) / all;
    let first = (first as u32).max(1);
    (first, threads.saturating_sub(first))
}

/// Returns the values of two columns at these indexes.
fn two_at<T: Copy, U: Copy>(
    alloc: Global,
    first: &[T],
    second: &[U],
    places: &[u32],
) -> Result<(Vec<T>, Vec<U>), Memory>
    requires first { All (λ place. place < length first.now) places.now }
    requires second { All (λ place. place < length second.now) places.now }
    ensures first { IfOk result (λ found. IsGathered first.now places.now found.0.items) }
    ensures second { IfOk result (λ found. IsGathered second.now places.now found.1.items) }
{
    let one = gather(alloc, first, places)?;
    let other = gather(alloc, second, places)?;
    Ok((one, other))
}

/// Returns the ids and the components of positions at these indexes, gathered by the given number of threads, at most
/// two.
fn firsts_by<R: Threads + Sync>(
    rt: &R,
    alloc: Global,
    threads: u32,
    lists: &Lists,
    places: &[u32],
) -> Result<(Vec<i64>, Vec<i32>, Vec<i32>, Vec<i32>), Memory>
    requires ids { All (λ place. place < length lists.now.ids) places.now }
    requires xs { All (λ place. place < length lists.now.xs) places.now }
    requires ys { All (λ place. place < length lists.now.ys) places.now }
    requires zs { All (λ place. place < length lists.now.zs) places.now }
    ensures ids { IfOk result (λ found. IsGathered lists.now.ids places.now found.0.items) }
    ensures xs { IfOk result (λ found. IsGathered lists.now.xs places.now found.1.items) }
    ensures ys { IfOk result (λ found. IsGathered lists.now.ys places.now found.2.items) }
    ensures zs { IfOk result (λ found. IsGathered lists.now.zs places.now found.3.items) }
{
    let (ids, xs) = (lists.ids(), lists.xs());
    let (ys, zs) = (lists.ys(), lists.zs());
    if threads < 2 {
        let (ids, xs) = two_at(alloc, ids, xs, places)?;
        let (ys, zs) = two_at(alloc, ys, zs, places)?;
        return Ok((ids, xs, ys, zs));
    }
    let (front, behind) = join(
        rt,
        || -> Result<(Vec<i64>, Vec<i32>), Memory>
            requires { All (λ place. place < length ids.now) places.now
                × All (λ place. place < length xs.now) places.now }
            ensures { IfOk result (λ found. IsGathered ids.entry.now places.entry.now found.0.items
                × IsGathered xs.entry.now places.entry.now found.1.items) }
        { two_at(alloc, ids, xs, places) },
        || -> Result<(Vec<i32>, Vec<i32>), Memory>
            requires { All (λ place. place < length ys.now) places.now
                × All (λ place. place < length zs.now) places.now }
            ensures { IfOk result (λ found. IsGathered ys.entry.now places.entry.now found.0.items
                × IsGathered zs.entry.now places.entry.now found.1.items) }
        { two_at(alloc, ys, zs, places) },
    );
    let (ids, xs) = front?;
    let (ys, zs) = behind?;
    Ok((ids, xs, ys, zs))
}

/// Returns the columns of all, given those of the first `at` and those of the others.
#[tactic(auto, using(crate::proofs::Gathering::turned_both))]
fn both_columns(
    columns: &[Column],
    places: &[u32],
    at: usize,
    first: Vec<Column>,
    second: Vec<Column>,
) -> Result<Vec<Column>, Memory>
    requires first { first.items
        ≡ map (λ column. map (λ place. get_or column place None) places.now) (take at columns.now) }
    requires second { second.items
        ≡ map (λ column. map (λ place. get_or column place None) places.now) (drop at columns.now) }
    ensures { IfOk result (λ found. found.items
        ≡ map (λ column. map (λ place. get_or column place None) places.now) columns.now) }
{
    let mut found = first;
    let mut others = second;
    found.append(&mut others)?;
    Ok(found)
}

/// Returns the number of columns for `some` of the threads, about `some / threads` of them.
fn share(columns: usize, threads: u32, some: u32) -> usize
    requires { 0 < threads }
    ensures { result ≤ columns }
{
    (columns.saturating_mul(some as usize) / threads as usize).min(columns)
}

/// Returns the columns of the rows with these numbers, gathered by the given number of threads.
fn columns_by<R: Threads + Sync>(
    rt: &R,
    alloc: Global,
    threads: u32,
    columns: &[Column],
    places: &[u32],
) -> Result<Vec<Column>, Memory>
    requires { All (λ column. All (λ place. place < length column) places.now) columns.now }
    ensures { IfOk result (λ found. found.items
        ≡ map (λ column. map (λ place. get_or column place None) places.now) columns.now) }
{
    if threads < 2 || columns.len() < 2 {
        return columns_at(alloc, columns, places);
    }
    let low = threads / 2;
    let high = threads - low;
    let at = share(columns.len(), threads, low);
    let (front, behind) = columns.split_at(at);
    let (first, second) = join(
        rt,
        || -> Result<Vec<Column>, Memory>
            requires { IsSync R.row
                × All (λ column. All (λ place. place < length column) places.now) front.now }
            ensures { IfOk result (λ found. found.items
                ≡ map (λ column. map (λ place. get_or column place None) places.entry.now) front.entry.now) }
        { columns_by(rt, alloc, low, front, places) },
        || -> Result<Vec<Column>, Memory>
            requires { IsSync R.row
                × All (λ column. All (λ place. place < length column) places.now) behind.now }
            ensures { IfOk result (λ found. found.items
                ≡ map (λ column. map (λ place. get_or column place None) places.entry.now) behind.entry.now) }
        { columns_by(rt, alloc, high, behind, places) },
    );
    both_columns(columns, places, at, first?, second?)
}

/// Returns the values of all columns at these indexes, gathered by the given number of threads. A thread that cannot be
/// started costs only time.
pub(crate) fn gather_all<R: Threads + Sync>(
    rt: &R,
    alloc: Global,
    threads: u32,
    lists: &Lists,
    places: &[u32],
) -> Result<((Vec<i64>, Vec<i32>, Vec<i32>, Vec<i32>), Vec<Column>), Memory>
    requires ids { All (λ place. place < length lists.now.ids) places.now }
    requires xs { All (λ place. place < length lists.now.xs) places.now }
    requires ys { All (λ place. place < length lists.now.ys) places.now }
    requires zs { All (λ place. place < length lists.now.zs) places.now }
    requires further { All (λ column. All (λ place. place < length column) places.now)
        lists.now.further }
    ensures ids { IfOk result (λ found. IsGathered lists.now.ids places.now found.0.0.items) }
    ensures xs { IfOk result (λ found. IsGathered lists.now.xs places.now found.0.1.items) }
    ensures ys { IfOk result (λ found. IsGathered lists.now.ys places.now found.0.2.items) }
    ensures zs { IfOk result (λ found. IsGathered lists.now.zs places.now found.0.3.items) }
    ensures further { IfOk result (λ found. found.1.items
        ≡ map (λ column. map (λ place. get_or column place None) places.now) lists.now.further) }
{
    let further = lists.extra();
    let (low, high) = shares(threads, further.len());
    let (first, second) = join(
        rt,
        || -> Result<(Vec<i64>, Vec<i32>, Vec<i32>, Vec<i32>), Memory>
            requires { IsSync R.row × All (λ place. place < length lists.now.ids) places.now
                × All (λ place. place < length lists.now.xs) places.now
                × All (λ place. place < length lists.now.ys) places.now
                × All (λ place. place < length lists.now.zs) places.now }
            ensures { IfOk result (λ found.
                IsGathered lists.entry.now.ids places.entry.now found.0.items
                × IsGathered lists.entry.now.xs places.entry.now found.1.items
                × IsGathered lists.entry.now.ys places.entry.now found.2.items
                × IsGathered lists.entry.now.zs places.entry.now found.3.items) }
        { firsts_by(rt, alloc, low, lists, places) },
        || -> Result<Vec<Column>, Memory>
            requires { IsSync R.row
                × All (λ column. All (λ place. place < length column) places.now) further.now }
            ensures { IfOk result (λ found. found.items
                ≡ map (λ column. map (λ place. get_or column place None) places.entry.now) further.entry.now) }
        { columns_by(rt, alloc, high, further, places) },
    );
    let first = first?;
    let second = second?;
    Ok((first, second))
}
