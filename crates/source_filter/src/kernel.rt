//! The kernels: each evaluates a test on a column of all sources at once, and clears a mask where the test fails.
ghost use Rattle.std.specs.Prelude.{◌≡◌, None, false, get_or, length, pos};
ghost use Rattle.source_row.specs.SourceColumns.{AreEven};
ghost use Rattle.source_filter.specs.Columns.{IsThere, value_in};
ghost use Rattle.source_filter.specs.Masks.{IsNarrowedBy};
ghost use Rattle.source_filter.specs.Tests.{number_passes, passes};

use crate::source_column::SourceColumn;
use crate::test::Test;
use lane_filter::{keep, keep_between, keep_present};
use sky_row::Column;
use source_row::SourceLists;

/// Clears the mask at sources whose value in the column does not pass the test. Does not allocate.
pub(crate) fn keep_passing(lists: &SourceLists, column: SourceColumn, test: Test, mask: &mut [bool])
    requires even { AreEven lists.now }
    requires there { IsThere (length lists.now.further) column }
    requires count { length lists.now.ids ≡ length mask.old }
    ensures { IsNarrowedBy (λ k. passes test (value_in lists.now column k) ≡ false)
        mask.old mask.new }
{
    match column {
        SourceColumn::Id => keep_numbers(lists.ids(), test, mask),
        SourceColumn::Object => keep_numbers(lists.objects(), test, mask),
        SourceColumn::Further(k) => keep_values(lists.further(k), test, mask),
    }
}

/// Clears the mask at numbers that do not pass the test.
fn keep_numbers(numbers: &[i64], test: Test, mask: &mut [bool])
    requires { length numbers.now ≡ length mask.old }
    ensures { IsNarrowedBy (λ k. number_passes test (get_or numbers.now k (pos 0)) ≡ false)
        mask.old mask.new }
{
    match test {
        Test::Compare { op, n } => keep(numbers, op, n, mask),
        Test::Range { low, high } => keep_between(numbers, low, high, mask),
    }
}

/// Clears the mask at values of an extra column that do not pass the test. NULL is stored as 0 and passes none.
#[tactic(auto, using(crate::proofs::Keeping::values_narrow))]
fn keep_values(column: &Column, test: Test, mask: &mut [bool])
    requires { length column.now ≡ length mask.old }
    ensures { IsNarrowedBy (λ k. passes test (get_or column.now k None) ≡ false) mask.old mask.new }
{
    keep_numbers(column.values(), test, mask);
    keep_not_null(column, mask);
}

/// Clears the mask at each NULL of an extra column.
#[tactic(auto, using(crate::proofs::Keeping::presence_narrows, crate::proofs::Keeping::narrowed_not))]
fn keep_not_null(column: &Column, mask: &mut [bool])
    requires { length column.now ≡ length mask.old }
    ensures { IsNarrowedBy (λ k. get_or column.now k None ≡ None) mask.old mask.new }
{
    if let Some(present) = column.present() {
        keep_present(present, mask);
    }
}
