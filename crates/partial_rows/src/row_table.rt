//! The table of rows that are in order.

ghost use Rattle.std.specs.Prelude.{◌≡◌, ◌+◌, ◌≤◌, ◌++◌, All, length, map, IfOk, OnOk, None, unwrap_or, slice_get, slice_range};
ghost use Rattle.std.specs.List.{flat_map};
ghost use Rattle.answer_rules.specs.Finish.{column_value};
ghost use Rattle.answer_rules.specs.Rows.{shown};
ghost use Rattle.partial_rows.specs.CompactRows.{compact_values, full};
ghost use Rattle.partial_rows.specs.Rows.{IsIn, row_of, row_values};

use crate::cell::Cell;
use crate::compact_row::CompactRow;
use crate::ranked::Ranked;
use answer_rules::MergeItem;
use answer_table::values::{put, values_room};
use answer_table::{Table, TableValue};
use sky_io::Memory;
use sky_vector::Num;
use std::alloc::Global;

/// Returns the value in a column, or NULL if there is none.
fn cell_at(cells: &[Cell], n: usize) -> Option<Num>
    ensures { result ≡ unwrap_or (slice_get cells.now n) None }
{
    cells.get(n)?.get()
}

/// Returns a merged item of a row.
fn column(cells: &[Cell], item: &MergeItem) -> TableValue
    ensures { result ≡ column_value cells.now item.now }
{
    match item {
        MergeItem::Column(n) => TableValue::shown(cell_at(cells, *n)),
        _ => TableValue::shown(None),
    }
}

/// Appends the merged items of a row.
fn put_row(values: &mut Vec<TableValue>, cells: &[Cell], items: &[MergeItem]) -> Result<(), Memory>
    ensures { OnOk result (values.new.items
        ≡ values.old.items ++ map (column_value cells.now) items.now) }
{
    for item in items {
        put(values, column(cells, item))?;
    }
    Ok(())
}

/// Returns the values of a row.
pub(crate) fn cells_of<'c>(cells: &'c [Cell], row: &Ranked) -> &'c [Cell]
    requires { IsIn (length cells.now) row.now }
    ensures { result.now ≡ (row_of cells.now row.now).cells }
{
    &cells[row.from..row.to]
}

/// Returns the values of the answer's rows.
fn row_values(
    alloc: Global,
    rows: &[Ranked],
    cells: &[Cell],
    items: &[MergeItem],
) -> Result<Vec<TableValue>, Memory>
    requires { All (IsIn (length cells.now)) rows.now }
    ensures { IfOk result (λ values. values.items
        ≡ flat_map (row_values cells.now items.now) rows.now) }
{
    let mut values = values_room(alloc, rows.len(), items.len())?;
    for row in rows {
        put_row(&mut values, cells_of(cells, row), items)?;
    }
    Ok(values)
}

/// Returns `width` of the values, from position `from` on.
fn part(cells: &[Cell], from: usize, width: usize) -> &[Cell]
    requires { from + width ≤ length cells.now }
    ensures { result.now ≡ slice_range cells.now from (from + width) }
{
    &cells[from..from + width]
}

/// Returns the values of compact rows, each of the given width.
fn compact_values(
    alloc: Global,
    compact: &[CompactRow],
    width: usize,
    cells: &[Cell],
    items: &[MergeItem],
) -> Result<Vec<TableValue>, Memory>
    requires { All (λ p. IsIn (length cells.now) (full width p)) compact.now }
    ensures { IfOk result (λ values. values.items
        ≡ flat_map (compact_values cells.now items.now width) compact.now) }
{
    let mut values = values_room(alloc, compact.len(), items.len())?;
    for row in compact {
        put_row(&mut values, part(cells, row.from, width), items)?;
    }
    Ok(values)
}

/// Returns the table of these compact rows, each of which has the given number of values. Allocates memory for it.
pub(crate) fn compact_table(
    alloc: Global,
    compact: &[CompactRow],
    width: usize,
    cells: &[Cell],
    items: &[MergeItem],
) -> Result<Table, Memory>
    requires { All (λ p. IsIn (length cells.now) (full width p)) compact.now }
    ensures { IfOk result (λ table. table ≡ map (λ r. map (column_value r.cells) items.now)
        (map (row_of cells.now) (map (full width) compact.now))) }
{
    let values = compact_values(alloc, compact, width, cells, items)?;
    Ok(Table::of(values, items.len(), compact.len()))
}

/// Returns the table of these rows. Allocates memory for it.
pub(crate) fn row_table(
    alloc: Global,
    rows: &[Ranked],
    cells: &[Cell],
    items: &[MergeItem],
) -> Result<Table, Memory>
    requires { All (IsIn (length cells.now)) rows.now }
    ensures { IfOk result (λ table. table ≡ map (λ r. map (column_value r.cells) items.now)
        (map (row_of cells.now) rows.now)) }
{
    let values = row_values(alloc, rows, cells, items)?;
    Ok(Table::of(values, items.len(), rows.len()))
}
