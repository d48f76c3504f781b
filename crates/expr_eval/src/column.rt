//! The value in a column of a row, or of one row of a pair.

ghost use Rattle.std.specs.Prelude.{◌≡◌, IsTrue};
ghost use Rattle.expr_eval.specs.Picks.{AreOfOneTable, AreRows, is_there, pick_of};
ghost use Rattle.value_rules.specs.Values.{cell_of};

use sky_row::Row;
use sql_bound::BoundCol;

/// States of each row that its values are within the bounds of their columns. A call adds the fact to a proof.
pub(crate) fn know(first: &Row, second: Option<&Row>)
    requires { AreOfOneTable (pick_of first.now second) }
    ensures { AreRows (pick_of first.now second.entry) }
{
    let _ = first.id();
    if let Some(row) = second {
        let _ = row.id();
    }
}

/// Returns the value in the column; `None` is NULL.
pub(crate) fn cell(col: &BoundCol, first: &Row, second: Option<&Row>) -> Option<i64>
    requires wide { AreOfOneTable (pick_of first.now second) }
    requires there { IsTrue (is_there (pick_of first.now second) col.now) }
    ensures { result ≡ cell_of (pick_of first.now second.entry) col.now }
{
    if col.second {
        second?.value(col.col)
    } else {
        first.value(col.col)
    }
}
