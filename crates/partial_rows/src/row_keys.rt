//! Compact rows are put in order by packed keys.
//!
//! A compact row without a second id, and with a first id from 0 to below 2^32, is packed into one number of 64 bits:
//! its first id, followed by the position of its values. Such numbers are compared and moved at a lower cost than rows
//! of 24 bytes, and each row is read back from its packed key.

ghost use Rattle.std.specs.Prelude.{◌≡◌, ◌+◌, ◌≤◌, [], IfSome, IsPermutation, IsSorted, length, map, pos, vec_capacity, vec_len};
ghost use Rattle.std.specs.Bool.{OnTrue};
ghost use Rattle.partial_rows.specs.CompactRows.{compact_order};
ghost use Rattle.partial_rows.specs.PackedKeys.{row_in};

use crate::compact_row::CompactRow;
use answer_table::lists::room;
use std::alloc::Global;

/// How many numbers one half of a packed key can hold.
const HALF: u64 = 1 << 32;

/// Returns the id, if it is from 0 to below 2^32.
#[inline]
fn short_id(id: i64) -> Option<u32>
    ensures { IfSome result (λ short. pos short ≡ id) }
{
    if 0 <= id && id <= u32::MAX as i64 {
        Some(id as u32)
    } else {
        None
    }
}

/// Returns the position, if it is below 2^32.
#[inline]
fn short_position(from: usize) -> Option<u32>
    ensures { IfSome result (λ short. short ≡ from) }
{
    if from <= u32::MAX as usize {
        Some(from as u32)
    } else {
        None
    }
}

/// Returns the packed key of these halves.
#[inline]
fn packed(high: u32, low: u32) -> u64
    ensures row { row_in result ≡ record { first = pos high; second = pos 0; from = low } }
{
    u64::from(high) * HALF + u64::from(low)
}

/// Returns the packed key of the compact row, if it has one.
#[inline]
fn key_of(row: &CompactRow) -> Option<u64>
    ensures { IfSome result (λ key. row_in key ≡ row.now) }
{
    if row.second != 0 {
        return None;
    }
    let high = short_id(row.first)?;
    let low = short_position(row.from)?;
    Some(packed(high, low))
}

/// Returns the compact row of a packed key.
#[inline]
fn row_in(key: u64) -> CompactRow
    ensures { result ≡ row_in key }
{
    CompactRow {
        first: (key / HALF) as i64,
        second: 0,
        from: (key % HALF) as usize,
    }
}

/// Appends the packed keys of the rows to the empty list, and returns whether each row has one. Does not allocate.
fn put_keys(keys: &mut Vec<u64>, rows: &[CompactRow]) -> bool
    requires none { keys.old.items ≡ [] }
    requires room { vec_len keys.old + length rows.now ≤ vec_capacity keys.old }
    ensures { OnTrue result (map row_in keys.new.items ≡ rows.now) }
{
    for row in rows {
        let Some(key) = key_of(row) else {
            return false;
        };
        keys.push_reserved(key);
    }
    true
}

/// Writes the rows of the packed keys over as many others.
fn put_rows(rows: &mut [CompactRow], keys: &[u64])
    requires { length rows.old ≡ length keys.now }
    ensures { rows.new ≡ map row_in keys.now }
{
    for j in 0..keys.len() {
        rows[j] = row_in(keys[j]);
    }
}

/// Puts the rows in order by packed keys, if each row has one and the keys can be allocated. Otherwise leaves the rows as
/// they are.
fn arrange(alloc: Global, rows: &mut [CompactRow])
    ensures { IsPermutation rows.old rows.new }
{
    let Ok(mut keys) = room(alloc, rows.len()) else {
        return;
    };
    if !put_keys(&mut keys, rows) {
        return;
    }
    keys.sort_unstable();
    put_rows(rows, keys.as_slice());
}

/// Sorts the rows. Allocates memory for packed keys, and does without if there is none. Rows that are in order are only
/// gone through by the sort at the end.
pub(crate) fn sort_rows(alloc: Global, rows: &mut Vec<CompactRow>)
    ensures permutation { IsPermutation rows.old.items rows.new.items }
    ensures sorted { IsSorted compact_order rows.new.items }
{
    arrange(alloc, rows.as_mut_slice());
    rows.sort_unstable();
}
