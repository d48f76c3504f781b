//! The rows of a multiset and the list of their values, which change together.

ghost use Rattle.std.specs.Prelude.{◌≡◌, ◌≤◌, ◌+◌, ◌++◌, ◌∷◌, [], length, OnErr, OnOk, vec_len, vec_capacity};
ghost use Rattle.answer_rules.specs.Keeps.{KeepsFirst};
ghost use Rattle.answer_rules.specs.Ranks.{row_order};
ghost use Rattle.partial_rows.specs.Multisets.{IsRowBuffer, out_row, pushed_in, ranks_in, rows_in};

use crate::cell::Cell;
use crate::rank::Rank;
use crate::row_buffer::{RowBuffer, join, put};
use crate::vacuum::vacuum_if_doubled;
use answer_table::lists::reserve;
use sky_io::Memory;
use sky_vector::Num;
use std::alloc::Global;

/// Appends the values. Does not allocate.
fn put_values(cells: &mut Vec<Cell>, values: &[Option<Num>])
    requires { vec_len cells.old + length values.now ≤ vec_capacity cells.old }
    ensures { cells.new.items ≡ cells.old.items ++ values.now }
{
    for value in values {
        cells.push_reserved(Cell::new(*value));
    }
}

/// Adds a row, and appends its values. After `Err` nothing has changed.
pub(crate) fn put_row(
    buffer: &mut RowBuffer,
    cells: &mut Vec<Cell>,
    rank: &Rank,
    values: &[Option<Num>],
) -> Result<(), Memory>
    requires mine { IsRowBuffer (length cells.old.items) buffer.old }
    ensures mine { IsRowBuffer (length cells.new.items) buffer.new }
    ensures pushed { pushed_in buffer.new ≡ pushed_in buffer.old }
    ensures kept { OnOk result (KeepsFirst row_order (pushed_in buffer.old)
        (rows_in cells.old.items buffer.old ++ out_row rank.now values.now ∷ [])
        (rows_in cells.new.items buffer.new)) }
    ensures rows { OnErr result (ranks_in buffer.new ≡ ranks_in buffer.old) }
    ensures cells { OnErr result (cells.new.items ≡ cells.old.items) }
{
    let from = cells.len();
    reserve(cells, values.len())?;
    put(buffer, rank.at(from, from + values.len()))?;
    put_values(cells, values);
    Ok(())
}

/// Adds a row, and returns how many values there were after the last vacuum. After `Err` nothing has changed.
pub(crate) fn put_and_vacuum(
    alloc: Global,
    buffer: &mut RowBuffer,
    cells: &mut Vec<Cell>,
    vacuumed: usize,
    rank: &Rank,
    values: &[Option<Num>],
) -> Result<usize, Memory>
    requires mine { IsRowBuffer (length cells.old.items) buffer.old }
    ensures mine { IsRowBuffer (length cells.new.items) buffer.new }
    ensures pushed { pushed_in buffer.new ≡ pushed_in buffer.old }
    ensures kept { OnOk result (KeepsFirst row_order (pushed_in buffer.old)
        (rows_in cells.old.items buffer.old ++ out_row rank.now values.now ∷ [])
        (rows_in cells.new.items buffer.new)) }
    ensures rows { OnErr result (ranks_in buffer.new ≡ ranks_in buffer.old) }
    ensures cells { OnErr result (cells.new.items ≡ cells.old.items) }
{
    put_row(buffer, cells, rank, values)?;
    Ok(vacuum_if_doubled(alloc, buffer, cells, vacuumed))
}

/// Adds the rows of another multiset of the same limit, and returns how many values there were after the last vacuum.
/// After `Err` nothing has changed.
pub(crate) fn join_and_vacuum(
    alloc: Global,
    buffer: &mut RowBuffer,
    cells: &mut Vec<Cell>,
    vacuumed: usize,
    theirs: RowBuffer,
    more: Vec<Cell>,
) -> Result<usize, Memory>
    requires mine { IsRowBuffer (length cells.old.items) buffer.old }
    requires theirs { IsRowBuffer (length more.items) theirs }
    requires alike { pushed_in theirs ≡ pushed_in buffer.old }
    ensures mine { IsRowBuffer (length cells.new.items) buffer.new }
    ensures pushed { pushed_in buffer.new ≡ pushed_in buffer.old }
    ensures joined { OnOk result (KeepsFirst row_order (pushed_in buffer.old)
        (rows_in cells.old.items buffer.old ++ rows_in more.items theirs)
        (rows_in cells.new.items buffer.new)) }
    ensures rows { OnErr result (rows_in cells.new.items buffer.new
        ≡ rows_in cells.old.items buffer.old) }
{
    join(buffer, cells, theirs, more)?;
    Ok(vacuum_if_doubled(alloc, buffer, cells, vacuumed))
}
