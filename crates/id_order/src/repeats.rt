//! The first id that repeats, found by sorting the ids with their row numbers.
//!
//! A search for each id among those before it would cost a search per id. Sorted, equal ids are adjacent, in the order
//! of their row numbers. So an id equals an earlier one exactly if the one before it in the sorted order is equal. The
//! first that does has the least of those row numbers. An id and its row number are one number, so both are compared at
//! once.
ghost use Rattle.std.specs.Prelude.{◌≡◌, ◌≢◌, ◌≤◌, ◌^◌, Some, length, IfNone, IfOk, IfSome};
ghost use Rattle.std.specs.List.{IsDistinct};
ghost use Rattle.std.specs.Ordering.{int_eq};
ghost use Rattle.table_rules.specs.Repeats.{IsFirstRepeat};
ghost use Rattle.id_order.specs.Keys.{IsLeast, least_of};
ghost use Rattle.sky_row.specs.Keys.{id_bits, place_in};
ghost use Rattle.table_rules.specs.declared.limits.TheConstants.{ROWS_MOST};

use sky_io::Memory;
use sky_row::{PLACES, sorted_keys};
use std::alloc::Global;

/// Returns the lesser of a row number and the least one so far.
fn lesser(least: Option<u32>, place: u32) -> u32
    ensures { result ≡ least_of least place }
{
    match least {
        Some(other) => other.min(place),
        None => place,
    }
}

/// Returns the least row number so far, including that of the key `behind` if the key before it has the same id.
fn least_with(least: Option<u32>, before: u128, behind: u128) -> Option<u32>
    ensures other { id_bits before ≢ id_bits behind → result ≡ least }
    ensures same { id_bits before ≡ id_bits behind
        → result ≡ Some (least_of least (place_in behind)) }
{
    if before / PLACES == behind / PLACES {
        Some(lesser(least, (behind % PLACES) as u32))
    } else {
        least
    }
}

/// Returns the least row number of a key that follows another of the same id, or `None` if there is none.
fn least_second(keys: &[u128]) -> Option<u32>
    ensures { IsLeast keys.now (length keys.now) result }
{
    let mut least = None;
    for i in 1..keys.len() {
        least = least_with(least, keys[i - 1], keys[i]);
    }
    least
}

/// Returns the row number, from 0, of the first id that an earlier one equals, or `None` if no two are equal. Allocates
/// memory for a sorted copy of the ids with their row numbers, 16 bytes an id.
pub(crate) fn first_repeat(alloc: Global, ids: &[i64]) -> Result<Option<u32>, Memory>
    requires few { length ids.now ≤ ROWS_MOST }
    ensures none { IfOk result (λ found. IfNone found (IsDistinct int_eq ids.now)) }
    ensures some { IfOk result (λ found. IfSome found (λ place. IsFirstRepeat ids.now place)) }
{
    let keys = sorted_keys(alloc, ids)?;
    Ok(least_second(keys.as_slice()))
}
