//! The extra values of a row: a number for each in the row itself, at most twelve.
//!
//! A row is read out of its columns and appended to them by value, many times a query, so it does not allocate. NULL is
//! stored as a number that no extra value is.
ghost use Rattle.std.specs.Prelude.{◌≡◌, ◌<◌, ◌≤◌, [], ◌∷◌, ◌++◌, length, Some, IsTrue, slice_get};
ghost use Rattle.std.specs.List.{list_all};
ghost use Rattle.column_lists.specs.Cells.{told};
ghost use Rattle.table_rules.specs.Objects.{is_further};
ghost use Rattle.table_rules.specs.declared.limits.TheConstants.{FURTHER_COLUMNS_MOST};

use std::marker::Model;
use table_rules::limits::FURTHER_COLUMNS_MOST;

/// The number that stores NULL: it is far below any extra value.
const NULL: i64 = i64::MIN;

/// The extra values of a row, each a value or `None` for NULL.
#[derive(Drop)]
pub(crate) struct Cells {
    /// The number of values.
    taken: usize,
    /// A number for each value, and 0 after them.
    numbers: [i64; FURTHER_COLUMNS_MOST],
}

impl Model for Cells {
    ghost use Rattle.std.specs.Prelude.{ℤ, List, Option, map, take, ◌≤◌};
    ghost use Rattle.column_lists.specs.Cells.{told};
    ghost use Rattle.table_rules.specs.declared.limits.TheConstants.{FURTHER_COLUMNS_MOST};

    ghost Value = { List (Option ℤ) };

    ghost view = { λ c. map told (take c.taken c.numbers) };

    ghost invariant = { λ c. c.taken ≤ FURTHER_COLUMNS_MOST };
}

impl Cells {
    /// Creates the cells of a row without extra values.
    pub(crate) fn new() -> Cells
        ensures { result ≡ [] }
    {
        Cells {
            taken: 0,
            numbers: [0; FURTHER_COLUMNS_MOST],
        }
    }

    /// Creates the cells of these values.
    pub(crate) fn from_slice(values: &[Option<i64>]) -> Cells
        requires further { IsTrue (list_all is_further values.now) }
        requires few { length values.now ≤ FURTHER_COLUMNS_MOST }
        ensures { result ≡ values.now }
    {
        let mut cells = Cells::new();
        for value in values {
            cells.push(*value);
        }
        cells
    }

    /// Appends a value.
    pub(crate) fn push(&mut self, value: Option<i64>)
        requires room { length self.old < FURTHER_COLUMNS_MOST }
        requires further { IsTrue (is_further value) }
        ensures { self.new ≡ self.old ++ value ∷ [] }
    {
        self.numbers[self.taken] = kept(value);
        self.taken += 1;
    }

    /// Returns the value with this index, from 0. Does not allocate.
    pub(crate) fn get(&self, i: usize) -> Option<i64>
        requires { i < length self.now }
        ensures { slice_get self.now i ≡ Some result }
    {
        let numbers = self.numbers.as_slice();
        told(numbers[i])
    }
}

/// Returns the number that stores an extra value.
fn kept(value: Option<i64>) -> i64
    requires { IsTrue (is_further value) }
    ensures { told result ≡ value }
{
    value.unwrap_or(NULL)
}

/// Returns the value that a stored number represents.
fn told(number: i64) -> Option<i64>
    ensures { result ≡ told number }
{
    if number == NULL { None } else { Some(number) }
}
