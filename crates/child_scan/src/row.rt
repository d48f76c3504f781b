//! The two rows of a pair. The evaluator takes rows of one width, so each is as wide as a row can be: the columns after
//! its own extra ones are NULL.

ghost use Rattle.std.specs.Prelude.{◌≡◌, ◌<◌, ◌+◌, IsTrue, get_or, length};
ghost use Rattle.sky_vector.specs.Pos.{point};
ghost use Rattle.sky_vector.specs.Points.{is_admissible};
ghost use Rattle.sky_row.specs.Columns.{no_row};
ghost use Rattle.table_rules.specs.Objects.{IsRow};
ghost use Rattle.table_rules.specs.declared.limits.TheConstants.{FIRST_COLUMNS};
ghost use Rattle.source_row.specs.SourceColumns.{source_at};
ghost use Rattle.child_scan.specs.ChunkSources.{AreChunkSources};
ghost use Rattle.child_scan.specs.Wide.{AreWide, IsWide, row_at_point};

use sky_row::{Row, Rows};
use sky_vector::Pos;
use source_row::SourceLists;
use table_rules::limits::{FIRST_COLUMNS, FURTHER_COLUMNS_MOST};

/// Returns the extra values of an object, and NULL after them.
fn object_values(row: &Row, width: u32) -> [Option<i64>; FURTHER_COLUMNS_MOST]
    requires width { width ≡ FIRST_COLUMNS + length row.now.further }
    requires limits { IsRow row.now }
    ensures { AreWide row.now.further result }
{
    let mut further = [None; FURTHER_COLUMNS_MOST];
    for k in 0..width as usize - FIRST_COLUMNS {
        further[k] = row.value((k + FIRST_COLUMNS) as u32);
    }
    further
}

/// Returns the object with this number.
pub(crate) fn object_row(rows: &Rows, i: u32) -> Row
    requires { i < length rows.now.objects }
    ensures { IsWide (get_or rows.now.objects i no_row) result }
{
    let row = rows.get(i);
    let further = object_values(&row, rows.schema().width());
    Row::new(row.id(), *row.pos(), further.as_slice())
}

/// Returns the extra values of the source with this number, and NULL after them.
fn source_values(lists: &SourceLists, width: usize, i: usize) -> [Option<i64>; FURTHER_COLUMNS_MOST]
    requires sources { AreChunkSources lists.now }
    requires width { width ≡ length lists.now.further }
    requires there { i < length lists.now.ids }
    ensures { AreWide (source_at lists.now i).further result }
{
    let mut further = [None; FURTHER_COLUMNS_MOST];
    for k in 0..width {
        further[k] = lists.further(k).get(i);
    }
    further
}

/// Returns the source with this number as the second row of a pair. Its object is at `at`.
pub(crate) fn source_row(lists: &SourceLists, width: usize, i: usize, at: &Pos) -> Row
    requires sources { AreChunkSources lists.now }
    requires width { width ≡ length lists.now.further }
    requires there { i < length lists.now.ids }
    requires admissible { IsTrue (is_admissible (point at.now)) }
    ensures { IsWide (row_at_point (point at.now) (source_at lists.now i)) result }
{
    let further = source_values(lists, width, i);
    Row::new(lists.ids()[i], *at, further.as_slice())
}
