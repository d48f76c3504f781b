//! A value of a row, or NULL, in sixteen bytes: a multiset of rows has millions of them.

ghost use Rattle.std.specs.Prelude.{◌≡◌, negsuc, ◌<ℤ◌, IfSome};
ghost use Rattle.partial_rows.specs.Cells.{cell_in};

use sky_vector::Num;
use sky_vector::limits::NUMBER_MOST;
use std::marker::Model;

/// NULL, or a whole number from -2^100 to 2^100.
#[derive(Drop)]
pub(crate) struct Cell {
    code: i128,
}

impl Model for Cell {
    ghost use Rattle.std.specs.Prelude.{Option, ℤ};
    ghost use Rattle.partial_rows.specs.Cells.{cell_in, IsCode};

    ghost Value = { Option ℤ };

    ghost view = { λ c. cell_in c.code };

    ghost invariant = { λ c. IsCode c.code };
}

/// The code of NULL, which is below every number.
const NULL: i128 = i128::MIN;

/// The least number.
const LEAST: i128 = -(NUMBER_MOST as i128);

impl Cell {
    /// Creates the cell with this value. Does not allocate.
    pub(crate) fn new(value: Option<Num>) -> Cell
        ensures { result ≡ value }
    {
        match value {
            None => Cell { code: NULL },
            Some(n) => Cell { code: n.get() },
        }
    }

    /// Returns a copy of the cell. Does not allocate.
    pub(crate) fn copy(&self) -> Cell
        ensures { result ≡ self.now }
    {
        Cell { code: self.code }
    }

    /// Returns the value. Does not allocate.
    pub(crate) fn get(&self) -> Option<Num>
        ensures { result ≡ self.now }
    {
        if self.code < LEAST {
            None
        } else {
            Num::new(self.code)
        }
    }
}
