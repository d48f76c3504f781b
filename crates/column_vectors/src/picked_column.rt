//! A column of 64-bit numbers without a NULL, at selected rows. It is read in the block: nothing is copied.
//!
//! A sum is added in 64 bits over segments too short to overflow, as that of a column vector is.
ghost use Rattle.std.specs.Prelude.{◌≡◌, ◌+◌, ◌+ℤ◌, ◌<◌, ◌≤◌, All, Some, get_or, length, map, pos};
ghost use Rattle.table_rules.specs.declared.limits.TheConstants.{ROWS_MOST};
ghost use Rattle.column_vectors.specs.Aggregates.{AreSummed, IsNoLarger, StaysWithin, joined_all, joined_from, numbers_between, sum_of};
ghost use Rattle.column_vectors.specs.PickedColumns.{IsPickedColumn, numbers_at};
ghost use Rattle.column_vectors.specs.declared.join.TheConstants.{NARROW_MOST, WIDE_MOST};

use crate::join::{Join, Plus};
use crate::least_greatest::LONG;
use std::marker::Model;

/// The numbers of a column and a selection vector, in whose order they are read.
#[derive(Drop)]
pub struct PickedColumn<'a> {
    values: &'a [i64],
    places: &'a [u32],
}

impl<'a> Model for PickedColumn<'a> {
    ghost use Rattle.std.specs.Prelude.{ℤ, List};
    ghost use Rattle.column_vectors.specs.PickedColumns.{IsPickedColumn, numbers_at};

    ghost Value = { List ℤ };

    ghost view = { λ s. numbers_at s.values.now s.places.now };

    ghost invariant = { λ s. IsPickedColumn s.values.now s.places.now };
}

impl<'a> PickedColumn<'a> {
    /// Creates the column of the numbers of the rows with these numbers.
    pub fn new(values: &'a [i64], places: &'a [u32]) -> PickedColumn<'a>
        requires { IsPickedColumn values.now places.now }
        ensures { result ≡ numbers_at values.now places.now }
    {
        PickedColumn { values, places }
    }

    /// Returns how many numbers are selected.
    pub fn len(&self) -> usize
        ensures { result ≡ length self.now }
    {
        self.places.len()
    }

    /// Returns the number with this index among them.
    pub fn get(&self, i: usize) -> i64
        requires { i < length self.now }
        ensures { result ≡ get_or self.now i (pos 0) }
    {
        number_at(self.values, self.places, i)
    }

    /// Returns their sum from index `from` to before index `to`.
    pub fn sum(&self, from: usize, to: usize) -> i128
        requires order { from ≤ to }
        requires there { to ≤ length self.now }
        requires few { to ≤ ROWS_MOST }
        ensures { result ≡ sum_of (numbers_between (map Some self.now) from to) }
    {
        sum_at(self.values, self.places, from, to)
    }

    /// Returns the least or the greatest of them in a range, by the operation that returns one of two.
    pub(crate) fn chosen<J: Join>(&self, join: &J, from: usize, to: usize) -> Option<i128>
        requires order { from ≤ to }
        requires there { to ≤ length self.now }
        requires chooses { IsNoLarger J.joins }
        ensures { result ≡ joined_all J.joins (numbers_between (map Some self.now) from to) }
    {
        if from == to {
            return None;
        }
        let first = self.get(from);
        let chosen = joined_at(join, first, self.values, self.places, from + 1, to);
        Some(i128::from(chosen))
    }
}

/// Returns the number of one selected row.
#[inline(always)]
fn number_at(values: &[i64], places: &[u32], i: usize) -> i64
    requires there { All (λ place. place < length values.now) places.now }
    requires within { i < length places.now }
    ensures { result ≡ get_or (numbers_at values.now places.now) i (pos 0) }
{
    values[places[i] as usize]
}

/// Returns the sum of the numbers of a range of the selected rows.
fn sum_at(values: &[i64], places: &[u32], from: usize, to: usize) -> i128
    requires there { All (λ place. place < length values.now) places.now }
    requires order { from ≤ to }
    requires within { to ≤ length places.now }
    requires fits { AreSummed LONG (map Some (numbers_at values.now places.now)) }
    requires wide { StaysWithin (λ a b. a +ℤ b) WIDE_MOST (pos 0)
        (map Some (numbers_at values.now places.now)) from to }
    ensures { result
        ≡ sum_of (numbers_between (map Some (numbers_at values.now places.now)) from to) }
{
    let mut total = 0i128;
    let mut at = from;
    while at < to {
        let end = at + LONG.min(to - at);
        total += i128::from(joined_at(&Plus, 0, values, places, at, end));
        at = end;
    }
    total
}

/// Combines a first number with the numbers of a range of the selected rows.
fn joined_at<J: Join>(
    join: &J,
    first: i64,
    values: &[i64],
    places: &[u32],
    from: usize,
    to: usize,
) -> i64
    requires there { All (λ place. place < length values.now) places.now }
    requires order { from ≤ to }
    requires within { to ≤ length places.now }
    requires fits { StaysWithin J.joins NARROW_MOST first
        (map Some (numbers_at values.now places.now)) from to }
    ensures { result ≡ joined_from J.joins first
        (numbers_between (map Some (numbers_at values.now places.now)) from to) }
{
    let mut total = first;
    for i in from..to {
        total = join.narrow(total, number_at(values, places, i));
    }
    total
}
