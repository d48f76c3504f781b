//! The rows of an answer, whose values are in one list.

ghost use Rattle.std.specs.Prelude.{◌≡◌, ◌*◌, ◌+◌, ◌<◌, ◌≤◌, All, length, slice_get, slice_range, Some};
ghost use Rattle.answer_table.specs.Tables.{IsShort, table_of};

use crate::table_value::TableValue;
use std::marker::Model;

/// The rows of an answer, in its order, all of the same width. An average is a count of ten-thousandths, at most 2^120 in size.
#[derive(Drop)]
pub struct Table {
    values: Vec<TableValue>,
    width: usize,
    rows: usize,
}

impl Model for Table {
    ghost use Rattle.answer_table.specs.Tables.{Lines};

    ghost Value = { Lines };

    ghost use Rattle.answer_table.specs.Tables.{IsTableOf, table_of};

    ghost view = { λ t. table_of t.rows t.width t.values.items };

    ghost invariant = { λ t. IsTableOf t.rows t.width t.values.items };
}

/// Returns `width` of the values, from position `from` on.
fn part(values: &[TableValue], from: usize, width: usize) -> &[TableValue]
    requires { from + width ≤ length values.now }
    ensures { result.now ≡ slice_range values.now from (from + width) }
{
    &values[from..from + width]
}

impl Table {
    /// Creates the table of the given number of rows of the given width, row by row. Does not allocate.
    pub fn of(values: Vec<TableValue>, width: usize, rows: usize) -> Table
        requires long { length values.items ≡ rows * width }
        requires short { All IsShort values.items }
        ensures { result ≡ table_of rows width values.items }
    {
        Table {
            values,
            width,
            rows,
        }
    }

    /// Returns the number of rows. Does not allocate.
    pub fn len(&self) -> usize
        ensures { result ≡ length self.now }
    {
        self.rows
    }

    /// Returns the values of the row with this number, from 0. Does not allocate.
    pub fn row(&self, i: usize) -> &[TableValue]
        requires { i < length self.now }
        ensures value { slice_get self.now i ≡ Some result.now }
        ensures short { All IsShort result.now }
    {
        part(self.values.as_slice(), i * self.width, self.width)
    }
}
