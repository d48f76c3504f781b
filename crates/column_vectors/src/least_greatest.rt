//! The least and the greatest of the values of some rows.

ghost use Rattle.std.specs.Prelude.{◌≡◌, ◌+◌, ◌<◌, ◌≤◌, ℕ, ℤ, List, true, false, length, get_or, nat_abs, pos, if◌then◌else◌, []};
ghost use Rattle.column_vectors.specs.Aggregates.{IsNoLarger, StaysWithin, greater, joined_all, joined_from, lesser, numbers_between};
ghost use Rattle.column_vectors.specs.Lanes.{IsSmall, numbers_of, values_in};
ghost use Rattle.column_vectors.specs.declared.join.TheConstants.{NARROW_MOST, WIDE_MOST};

use crate::join::{Join, NARROW_MOST};
use crate::lane::Lane;
use crate::numbers::Numbers;

/// The number of rows of a segment if the numbers are small, as those of a column are, and if they are larger.
pub(crate) const LONG: usize = 4096;

/// The operation that returns the lesser of two.
#[derive(Clone, Copy)]
pub(crate) struct Lesser;

impl Join for Lesser {
    ghost joins = { lesser };

    #[inline(always)]
    fn narrow(&self, left: i64, right: i64) -> i64 {
        if left <= right { left } else { right }
    }

    #[inline(always)]
    fn wide(&self, left: i128, right: i128) -> i128 {
        if left <= right { left } else { right }
    }
}

/// The operation that returns the greater of two.
#[derive(Clone, Copy)]
pub(crate) struct Greater;

impl Join for Greater {
    ghost joins = { greater };

    #[inline(always)]
    fn narrow(&self, left: i64, right: i64) -> i64 {
        if left <= right { right } else { left }
    }

    #[inline(always)]
    fn wide(&self, left: i128, right: i128) -> i128 {
        if left <= right { right } else { left }
    }
}

/// Returns the least or the greatest of the values of the column vector in a range, by the operation that returns one
/// of two.
pub(crate) fn chosen<J: Join>(join: &J, lane: &Lane, from: usize, to: usize) -> Option<i128>
    requires order { from ≤ to }
    requires there { to ≤ length lane.now.known.items }
    requires small { IsSmall lane.now }
    requires chooses { IsNoLarger J.joins }
    ensures { result ≡ joined_all J.joins (numbers_between (values_in (numbers_of lane.now.numbers)
        lane.now.known.items) from to) }
{
    let known = lane.known.as_slice();
    let first = first_known(known, from, to);
    if first == to {
        return None;
    }
    Some(chosen_from(join, lane, first, first + 1, to))
}

/// Combines the value at index `first` with the values of a range.
fn chosen_from<J: Join>(join: &J, lane: &Lane, first: usize, from: usize, to: usize) -> i128
    requires order { from ≤ to }
    requires there { to ≤ length lane.now.known.items }
    requires first { first < length lane.now.known.items }
    requires small { IsSmall lane.now }
    requires chooses { IsNoLarger J.joins }
    ensures { result ≡ joined_from J.joins (get_or (numbers_of lane.now.numbers) first (pos 0))
        (numbers_between (values_in (numbers_of lane.now.numbers) lane.now.known.items) from to) }
{
    let known = lane.known.as_slice();
    match (&lane.numbers, lane.bound <= NARROW_MOST) {
        (Numbers::Narrow(numbers), true) => {
            let numbers = numbers.as_slice();
            i128::from(narrow_from(join, numbers[first], numbers, known, from, to))
        },
        (numbers, _) => wide_from(join, numbers.get(first), numbers, known, from, to),
    }
}

/// Returns the first index in a range that is valid, or the end of the range if there is none.
fn first_known(known: &[bool], from: usize, to: usize) -> usize
    requires order { from ≤ to }
    requires there { to ≤ length known.now }
    ensures least { from ≤ result }
    ensures most { result ≤ to }
    ensures none { (numbers : List ℤ)
        → numbers_between (values_in numbers known.now) from result ≡ [] }
    ensures known { result < to → get_or known.now result false ≡ true }
{
    for i in from..to {
        if known[i] {
            return i;
        }
    }
    to
}

/// Combines a first number with the valid numbers of a range, in 64 bits.
pub(crate) fn narrow_from<J: Join>(
    join: &J,
    first: i64,
    numbers: &[i64],
    known: &[bool],
    from: usize,
    to: usize,
) -> i64
    requires count { length known.now ≡ length numbers.now }
    requires order { from ≤ to }
    requires there { to ≤ length numbers.now }
    requires fits { StaysWithin J.joins NARROW_MOST first (values_in numbers.now known.now)
        from to }
    ensures { result
        ≡ joined_from J.joins first (numbers_between (values_in numbers.now known.now) from to) }
{
    if are_known(known, from, to) {
        whole_from(join, first, numbers, known, from, to)
    } else {
        partly_from(join, first, numbers, known, from, to)
    }
}

/// Returns whether all rows of a range are valid.
fn are_known(known: &[bool], from: usize, to: usize) -> bool
    requires order { from ≤ to }
    requires there { to ≤ length known.now }
    ensures { result ≡ true
        → (i : ℕ) → from ≤ i → i < to → get_or known.now i false ≡ true }
{
    let mut all = true;
    for i in from..to {
        all = all & known[i];
    }
    all
}

/// Combines a first number with the numbers of a range, all of which are valid.
fn whole_from<J: Join>(
    join: &J,
    first: i64,
    numbers: &[i64],
    known: &[bool],
    from: usize,
    to: usize,
) -> i64
    requires count { length known.now ≡ length numbers.now }
    requires order { from ≤ to }
    requires there { to ≤ length numbers.now }
    requires known { (i : ℕ) → from ≤ i → i < to → get_or known.now i false ≡ true }
    requires fits { StaysWithin J.joins NARROW_MOST first (values_in numbers.now known.now)
        from to }
    ensures { result
        ≡ joined_from J.joins first (numbers_between (values_in numbers.now known.now) from to) }
{
    let mut total = first;
    for i in from..to {
        total = join.narrow(total, numbers[i]);
    }
    total
}

/// Combines a first number with the valid numbers of a range, some of which are NULL.
fn partly_from<J: Join>(
    join: &J,
    first: i64,
    numbers: &[i64],
    known: &[bool],
    from: usize,
    to: usize,
) -> i64
    requires count { length known.now ≡ length numbers.now }
    requires order { from ≤ to }
    requires there { to ≤ length numbers.now }
    requires fits { StaysWithin J.joins NARROW_MOST first (values_in numbers.now known.now)
        from to }
    ensures { result
        ≡ joined_from J.joins first (numbers_between (values_in numbers.now known.now) from to) }
{
    let mut total = first;
    for i in from..to {
        total = with_narrow(join, total, numbers[i], known[i]);
    }
    total
}

/// Combines the two, if the number is valid.
#[inline(always)]
fn with_narrow<J: Join>(join: &J, total: i64, number: i64, is_known: bool) -> i64
    requires { is_known ≡ true → nat_abs (J.joins total number) ≤ NARROW_MOST }
    ensures { result ≡ (if is_known then J.joins total number else total) }
{
    if is_known {
        join.narrow(total, number)
    } else {
        total
    }
}

/// Combines a first number with the valid numbers of a range, in 128 bits.
pub(crate) fn wide_from<J: Join>(
    join: &J,
    first: i128,
    numbers: &Numbers,
    known: &[bool],
    from: usize,
    to: usize,
) -> i128
    requires count { length known.now ≡ length (numbers_of numbers.now) }
    requires order { from ≤ to }
    requires there { to ≤ length known.now }
    requires fits { StaysWithin J.joins WIDE_MOST first
        (values_in (numbers_of numbers.now) known.now) from to }
    ensures { result ≡ joined_from J.joins first
        (numbers_between (values_in (numbers_of numbers.now) known.now) from to) }
{
    let mut total = first;
    for i in from..to {
        total = with_wide(join, total, numbers.get(i), known[i]);
    }
    total
}

/// Combines the two, if the number is valid.
#[inline(always)]
fn with_wide<J: Join>(join: &J, total: i128, number: i128, is_known: bool) -> i128
    requires { is_known ≡ true → nat_abs (J.joins total number) ≤ WIDE_MOST }
    ensures { result ≡ (if is_known then J.joins total number else total) }
{
    if is_known {
        join.wide(total, number)
    } else {
        total
    }
}
