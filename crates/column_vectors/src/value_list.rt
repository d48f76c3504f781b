//! The values of an expression on some rows.
ghost use Rattle.std.specs.Prelude.{◌≡◌, ◌<◌, ◌≤◌, None, Some, length, get_or, map};
ghost use Rattle.table_rules.specs.declared.limits.TheConstants.{ROWS_MOST};
ghost use Rattle.column_vectors.specs.Aggregates.{IsNoLarger, greater, joined_all, lesser, numbers_between, sum_of};
ghost use Rattle.column_vectors.specs.Lanes.{IsSmall, numbers_of, value_in, values_in};

use crate::aggregate::{count, sum};
use crate::join::Join;
use crate::lane::Lane;
use crate::least_greatest::{Greater, Lesser, chosen};
use crate::numbers::Numbers;
use crate::picked_column::PickedColumn;
use crate::scratch::Scratch;
use std::marker::Model;

/// The values, one for each row; `None` is NULL.
#[derive(Drop)]
pub struct ValueList<'a> {
    source: Source<'a>,
}

/// The source of the values.
#[derive(Drop)]
pub(crate) enum Source<'a> {
    /// A number for each row, which has no meaning if the row has no value, and which rows have one.
    Lane(Lane),
    /// A column of the block, at the selected rows.
    Column(PickedColumn<'a>),
}

impl<'a> Model for ValueList<'a> {
    ghost use Rattle.std.specs.Prelude.{ℤ, List, Option};
    ghost use Rattle.column_vectors.specs.Sources.{IsWithinBound, values_of};

    ghost Value = { List (Option ℤ) };

    ghost view = { λ v. values_of v.source };

    ghost invariant = { λ v. IsWithinBound v.source };
}

impl<'a> ValueList<'a> {
    /// Creates the values of a column vector.
    pub fn of(lane: Lane) -> ValueList<'a>
        requires { IsSmall lane }
        ensures { result ≡ values_in (numbers_of lane.numbers) lane.known.items }
    {
        ValueList {
            source: Source::Lane(lane),
        }
    }

    /// Creates the values of a column at selected rows.
    pub fn picked(numbers: PickedColumn<'a>) -> ValueList<'a>
        ensures { result ≡ map Some numbers.entry }
    {
        ValueList {
            source: Source::Column(numbers),
        }
    }

    /// Returns the number of rows. Does not allocate.
    pub fn len(&self) -> usize
        ensures { result ≡ length self.now }
    {
        match &self.source {
            Source::Lane(lane) => lane.known.len(),
            Source::Column(numbers) => numbers.len(),
        }
    }

    /// Returns the value of the row with this number, from 0; `None` is NULL. Does not allocate.
    pub fn get(&self, i: usize) -> Option<i128>
        requires { i < length self.now }
        ensures { result ≡ get_or self.now i None }
    {
        match &self.source {
            Source::Lane(lane) => value_at(&lane.numbers, lane.known.as_slice(), i),
            Source::Column(numbers) => Some(i128::from(numbers.get(i))),
        }
    }

    /// Returns how many of the values from index `from` to before index `to` are not NULL. Does not allocate.
    pub fn count(&self, from: usize, to: usize) -> u32
        requires order { from ≤ to }
        requires there { to ≤ length self.now }
        requires few { to ≤ ROWS_MOST }
        ensures { result ≡ length (numbers_between self.now from to) }
    {
        match &self.source {
            Source::Lane(lane) => count(lane.known.as_slice(), from, to),
            Source::Column(_) => (to - from) as u32,
        }
    }

    /// Returns their sum, 0 if there are none. Does not allocate.
    pub fn sum(&self, from: usize, to: usize) -> i128
        requires order { from ≤ to }
        requires there { to ≤ length self.now }
        requires few { to ≤ ROWS_MOST }
        ensures { result ≡ sum_of (numbers_between self.now from to) }
    {
        match &self.source {
            Source::Lane(lane) => sum(lane, from, to),
            Source::Column(numbers) => numbers.sum(from, to),
        }
    }

    /// Returns the least of them, if there is one. Does not allocate.
    pub fn least(&self, from: usize, to: usize) -> Option<i128>
        requires order { from ≤ to }
        requires there { to ≤ length self.now }
        ensures { result ≡ joined_all lesser (numbers_between self.now from to) }
    {
        self.chosen(&Lesser, from, to)
    }

    /// Returns the greatest of them, if there is one. Does not allocate.
    pub fn greatest(&self, from: usize, to: usize) -> Option<i128>
        requires order { from ≤ to }
        requires there { to ≤ length self.now }
        ensures { result ≡ joined_all greater (numbers_between self.now from to) }
    {
        self.chosen(&Greater, from, to)
    }

    /// Returns the least or the greatest of them, by the operation that returns one of two.
    fn chosen<J: Join>(&self, join: &J, from: usize, to: usize) -> Option<i128>
        requires order { from ≤ to }
        requires there { to ≤ length self.now }
        requires chooses { IsNoLarger J.joins }
        ensures { result ≡ joined_all J.joins (numbers_between self.now from to) }
    {
        match &self.source {
            Source::Lane(lane) => chosen(join, lane, from, to),
            Source::Column(numbers) => numbers.chosen(join, from, to),
        }
    }

    /// Gives the vectors back to the scratch, for the next evaluation. Does not allocate.
    pub fn give_back(self, scratch: &mut Scratch) {
        match self.source {
            Source::Lane(lane) => lane.give_back(scratch),
            Source::Column(_) => (),
        }
    }
}

/// Returns the value at an index: the number there, if it is valid.
fn value_at(numbers: &Numbers, known: &[bool], i: usize) -> Option<i128>
    requires numbers { i < length (numbers_of numbers.now) }
    requires known { i < length known.now }
    ensures { result ≡ value_in (numbers_of numbers.now) known.now i }
{
    if known[i] { Some(numbers.get(i)) } else { None }
}
