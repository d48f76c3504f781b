//! The count and the sum of the values of some rows.

ghost use Rattle.std.specs.Prelude.{◌≡◌, ◌+◌, ◌+ℤ◌, ◌*◌, ◌<◌, ◌≤◌, ℤ, List, length, pos, IfSome};
ghost use Rattle.table_rules.specs.declared.limits.TheConstants.{ROWS_MOST};
ghost use Rattle.column_vectors.specs.Aggregates.{AreSummed, StaysWithin, numbers_between, sum_of};
ghost use Rattle.column_vectors.specs.Lanes.{IsSmall, numbers_of, values_in};
ghost use Rattle.column_vectors.specs.declared.join.TheConstants.{NARROW_MOST, WIDE_MOST};

use crate::join::{NARROW_MOST, Plus};
use crate::lane::Lane;
use crate::least_greatest::{LONG, narrow_from, wide_from};
use crate::numbers::Numbers;

const SHORT: usize = 64;

/// Returns how many of the rows from index `from` to before index `to` are valid.
pub(crate) fn count(known: &[bool], from: usize, to: usize) -> u32
    requires order { from ≤ to }
    requires there { to ≤ length known.now }
    requires few { to ≤ ROWS_MOST }
    ensures { (numbers : List ℤ) → result
        ≡ length (numbers_between (values_in numbers known.now) from to) }
{
    let mut count = 0u32;
    for i in from..to {
        count += u32::from(known[i]);
    }
    count
}

/// Returns the sum of the values of the column vector from index `from` to before index `to`.
pub(crate) fn sum(lane: &Lane, from: usize, to: usize) -> i128
    requires order { from ≤ to }
    requires there { to ≤ length lane.now.known.items }
    requires few { to ≤ ROWS_MOST }
    requires small { IsSmall lane.now }
    ensures { result ≡ sum_of (numbers_between (values_in (numbers_of lane.now.numbers)
        lane.now.known.items) from to) }
{
    let known = lane.known.as_slice();
    match (&lane.numbers, rows_of(lane.bound)) {
        (Numbers::Narrow(numbers), Some(rows)) => {
            sum_by_blocks(numbers.as_slice(), known, from, to, rows)
        },
        (numbers, _) => wide_from(&Plus, 0, numbers, known, from, to),
    }
}

/// Returns how many numbers within the bound always have a sum of 64 bits, if these are enough for a segment.
fn rows_of(bound: u128) -> Option<usize>
    ensures { IfSome result (λ rows. (0 < rows) × (rows * bound ≤ NARROW_MOST)) }
{
    if bound <= NARROW_MOST / LONG as u128 {
        Some(LONG)
    } else if bound <= NARROW_MOST / SHORT as u128 {
        Some(SHORT)
    } else {
        None
    }
}

/// Returns the sum of the valid numbers of 64 bits in a range, if `rows` of them always have a sum of 64 bits.
fn sum_by_blocks(numbers: &[i64], known: &[bool], from: usize, to: usize, rows: usize) -> i128
    requires count { length known.now ≡ length numbers.now }
    requires order { from ≤ to }
    requires there { to ≤ length numbers.now }
    requires few { to ≤ ROWS_MOST }
    requires some { 0 < rows }
    requires fits { AreSummed rows (values_in numbers.now known.now) }
    requires wide { StaysWithin (λ a b. a +ℤ b) WIDE_MOST (pos 0) (values_in numbers.now known.now)
        from to }
    ensures { result ≡ sum_of (numbers_between (values_in numbers.now known.now) from to) }
{
    let mut total = 0i128;
    let mut at = from;
    while at < to {
        let end = at + rows.min(to - at);
        total += i128::from(narrow_from(&Plus, 0, numbers, known, at, end));
        at = end;
    }
    total
}
