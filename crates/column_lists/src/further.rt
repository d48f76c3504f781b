//! The extra columns of rows: each operation does the same to each of them.
ghost use Rattle.std.specs.Prelude.{◌≡◌, ◌<◌, ◌≤◌, ℕ, [], ◌∷◌, ◌++◌, length, map, take, get_or, replicate, All};
ghost use Rattle.std.specs.Prelude.{IfOk, IsTrue, OnOk, OnErr, None};
ghost use Rattle.std.specs.List.{list_all};
ghost use Rattle.table_rules.specs.Objects.{is_further};
ghost use Rattle.column_lists.specs.Columns.{IsFront, cells_in, columns_appended};
ghost use Rattle.column_lists.specs.Filling.{IsFilled};
ghost use Rattle.table_rules.specs.declared.limits.TheConstants.{FURTHER_COLUMNS_MOST};

use crate::cells::Cells;
use crate::column::Column;
use crate::row::Row;
use sky_io::Memory;
use std::alloc::Global;
use table_rules::limits::FIRST_COLUMNS;

/// Returns the values of one row in each of the columns.
pub(crate) fn cells_at(columns: &[Column], i: usize) -> Cells
    requires few { length columns.now ≤ FURTHER_COLUMNS_MOST }
    requires there { All (λ column. i < length column) columns.now }
    requires further { IsTrue (list_all is_further (cells_in columns.now i)) }
    ensures { result ≡ cells_in columns.now i }
{
    let mut cells = Cells::new();
    for column in columns {
        cells.push(column.get(i));
    }
    cells
}

/// Returns the columns of the rows with these numbers, which are counted from 0, in their order. Allocates memory for them.
pub fn columns_at(alloc: Global, columns: &[Column], places: &[u32]) -> Result<Vec<Column>, Memory>
    requires { All (λ column. All (λ place. place < length column) places.now) columns.now }
    ensures { IfOk result (λ found. found.items
        ≡ map (λ column. map (λ place. get_or column place None) places.now) columns.now) }
{
    let mut found = Vec::new(alloc);
    for column in columns {
        found.push(column.at(alloc, places)?)?;
    }
    Ok(found)
}

/// Returns the columns, each with the values of the other column with the same number appended. Allocates memory for
/// each column. If an allocation fails, the columns are dropped.
pub fn columns_appended(
    alloc: Global,
    columns: Vec<Column>,
    others: &[Column],
) -> Result<Vec<Column>, Memory>
    requires { length others.now ≡ length columns.items }
    ensures { IfOk result (λ found. found.items ≡ columns_appended columns.items others.now) }
{
    let mut found = Vec::with_capacity(alloc, columns.len())?;
    for column in columns {
        let both = column.followed_by(alloc, &others[found.len()])?;
        found.push_reserved(both);
    }
    Ok(found)
}

/// Appends the values of the next rows of the list to the columns, from those of a table, up to `count` in all.
pub(crate) fn fill_columns(
    columns: &mut Vec<Column>,
    table: &[Column],
    places: &[u32],
    count: usize,
) -> Result<(), Memory>
    requires there { All (λ column. All (λ place. place < length column) places.now) table.now }
    requires few { count ≤ length places.now }
    requires wide { length columns.old.items ≡ length table.now }
    requires more { (j : ℕ) → j < length table.now
        → length (get_or columns.old.items j []) ≤ count }
    requires so_far { (j : ℕ) → j < length table.now
        → IsFilled (length (get_or columns.old.items j []))
        (get_or table.now j []) places.now (get_or columns.old.items j []) }
    ensures wide { length columns.new.items ≡ length columns.old.items }
    ensures filled { OnOk result ((j : ℕ) → j < length table.now
        → IsFilled count (get_or table.now j []) places.now (get_or columns.new.items j [])) }
    ensures front { (j : ℕ) → j < length columns.old.items
        → IsFront (get_or columns.old.items j []) (get_or columns.new.items j []) }
{
    for k in 0..columns.len() {
        columns[k].fill(&table[k], places, count)?;
    }
    Ok(())
}

/// Creates `width` columns without rows, each with room for `room` rows. Allocates memory for them.
#[tactic(auto, using(crate::proofs::Gathering::replicate_more))]
pub fn empty_columns(alloc: Global, width: u32, room: usize) -> Result<Vec<Column>, Memory>
    ensures { IfOk result (λ columns. columns.items ≡ replicate width []) }
{
    let mut columns = Vec::new(alloc);
    for turn in 0..width {
        columns.push(Column::with_room(alloc, room)?)?;
    }
    Ok(columns)
}

/// Appends the extra values of a row to their columns. If an allocation fails, some columns have the new value and some
/// do not.
pub(crate) fn push_cells(columns: &mut Vec<Column>, row: &Row) -> Result<(), Memory>
    requires few { length row.now.further ≤ FURTHER_COLUMNS_MOST }
    requires wide { length row.now.further ≡ length columns.old.items }
    ensures len { length columns.new.items ≡ length columns.old.items }
    ensures ok { OnOk result ((k : ℕ) → k < length columns.old.items
        → get_or columns.new.items k [] ≡ get_or columns.old.items k [] ++ get_or row.now.further k None ∷ []) }
    ensures err { OnErr result ((k : ℕ) → k < length columns.old.items
        → IsFront (get_or columns.old.items k []) (get_or columns.new.items k [])) }
{
    for k in 0..columns.len() {
        push_cell(&mut columns[k], row, k as u32)?;
    }
    Ok(())
}

/// Appends the extra value of a row with index `k`, from 0, to its column.
#[tactic(auto, using(crate::proofs::Gathering::further_cell, crate::proofs::Gathering::front_same, crate::proofs::Gathering::front_more))]
fn push_cell(column: &mut Column, row: &Row, k: u32) -> Result<(), Memory>
    requires few { length row.now.further ≤ FURTHER_COLUMNS_MOST }
    requires there { k < length row.now.further }
    ensures ok { OnOk result (column.new ≡ column.old ++ get_or row.now.further k None ∷ []) }
    ensures front { IsFront column.old column.new }
{
    column.push(row.value(FIRST_COLUMNS as u32 + k))
}

/// Truncates the columns to the first `count` rows.
#[tactic(auto, using(crate::proofs::Gathering::all_cut))]
pub(crate) fn truncate_cells(columns: &mut Vec<Column>, count: usize)
    ensures { columns.new.items ≡ map (take count) columns.old.items }
{
    for k in 0..columns.len() {
        columns[k].truncate(count);
    }
}
