//! All rows of a multiset without a limit.
//!
//! Most queries that list millions of rows have no ORDER BY. Such rows are ordered by their ids alone, and are stored
//! as short records, which are what is sorted at the end. A row is such a row if its sort key is that of no order key.
//! A NULL key in ascending order has that sort key too, and so has the key 0 in descending order.

ghost use Rattle.std.specs.Prelude.{◌≡◌, ◌≤◌, ◌+◌, ◌-◌, ◌^◌, ◌++◌, ◌∷◌, [], pos, All, IsPermutation, length, map, None, OnErr, OnOk, vec_capacity, vec_len};
ghost use Rattle.std.specs.Bool.{OnTrue};
ghost use Rattle.answer_rules.specs.Keeps.{KeepsFirst};
ghost use Rattle.answer_rules.specs.Ranks.{row_order};
ghost use Rattle.partial_rows.specs.CompactRows.{HasRoom, IsCompactIn, TakesOne, all_of, full};
ghost use Rattle.partial_rows.specs.Rows.{IsIn, moved, rank_order, row_of};

use crate::cell::Cell;
use crate::compact_row::CompactRow;
use crate::ranked::Ranked;
use answer_table::lists::{append, reserve};
use sky_io::Memory;
use std::alloc::Global;

/// The compact rows, which sort as rows without an order key and have `width` values each, and all other rows. Both
/// lists are in any order.
#[derive(Drop)]
pub(crate) struct UnlimitedRows {
    pub(crate) compact: Vec<CompactRow>,
    pub(crate) width: usize,
    pub(crate) rows: Vec<Ranked>,
}

/// Returns whether the row sorts as a row without an order key.
fn is_unordered(row: &Ranked) -> bool
    ensures class { OnTrue result (row.now.class ≡ 0) }
    ensures value { OnTrue result (row.now.value ≡ pos 0) }
{
    row.class == 0 && row.value == 0
}

impl UnlimitedRows {
    /// Creates a list without rows. Does not allocate.
    pub(crate) fn new(alloc: Global) -> UnlimitedRows
        ensures { all_of result ≡ [] }
    {
        UnlimitedRows {
            compact: Vec::new(alloc),
            width: 0,
            rows: Vec::new(alloc),
        }
    }

    /// Returns the number of rows.
    pub(crate) fn len(&self) -> usize
        ensures { result ≡ length (all_of self.now) }
    {
        self.compact.len() + self.rows.len()
    }

    /// Returns whether each of the compact rows has the given number of values.
    fn is_wide(&self, width: usize) -> bool
        ensures { OnTrue result (map (full width) self.now.compact.items
            ≡ map (full self.now.width) self.now.compact.items) }
    {
        self.compact.is_empty() || self.width == width
    }

    /// Returns whether the row can be one of the compact ones.
    fn is_compact(&self, row: &Ranked) -> bool
        ensures { OnTrue result (IsCompactIn self.now row.now) }
    {
        is_unordered(row) && row.from <= row.to && self.is_wide(row.to - row.from)
    }

    /// Reserves room for the given number of more rows of either kind. After `Err` nothing has changed.
    fn make_room(&mut self, more: usize) -> Result<(), Memory>
        ensures same { all_of self.new ≡ all_of self.old }
        ensures room { OnOk result (HasRoom self.new more) }
    {
        reserve(&mut self.compact, more)?;
        reserve(&mut self.rows, more)
    }

    /// Adds the row to the compact ones. Does not allocate.
    fn put_compact(&mut self, row: &Ranked)
        requires compact { IsCompactIn self.old row.now }
        requires room { HasRoom self.old 1 }
        ensures put { IsPermutation (all_of self.old ++ row.now ∷ []) (all_of self.new) }
        ensures takes { TakesOne self.old self.new }
    {
        self.width = row.to - row.from;
        self.compact.push_reserved(CompactRow::of(row));
    }

    /// Adds the row to the list of its kind. Does not allocate.
    fn put_reserved(&mut self, row: Ranked)
        requires room { HasRoom self.old 1 }
        ensures put { IsPermutation (all_of self.old ++ row ∷ []) (all_of self.new) }
        ensures takes { TakesOne self.old self.new }
    {
        if self.is_compact(&row) {
            self.put_compact(&row);
            return;
        }
        self.rows.push_reserved(row);
    }

    /// Adds the row. After `Err` nothing has changed.
    pub(crate) fn put(&mut self, row: Ranked) -> Result<(), Memory>
        ensures kept { OnOk result (KeepsFirst rank_order None (all_of self.old ++ row ∷ [])
            (all_of self.new)) }
        ensures same { OnErr result (all_of self.new ≡ all_of self.old) }
    {
        self.make_room(1)?;
        self.put_reserved(row);
        Ok(())
    }
}

/// Adds compact rows of the given width to the list, their values shifted by the given offset. Does not allocate.
fn put_compact_rows(
    unlimited: &mut UnlimitedRows,
    others: &[CompactRow],
    width: usize,
    by: usize,
    count: usize,
)
    requires room { HasRoom unlimited.old (length others.now) }
    requires there { All (λ p. IsIn count (full width p)) others.now }
    requires fits { by + count ≤ 2 ^ 64 - 1 }
    ensures put { IsPermutation
        (all_of unlimited.old ++ map (λ p. moved by (full width p)) others.now)
        (all_of unlimited.new) }
    ensures compact { vec_len unlimited.new.compact + vec_capacity unlimited.old.compact
        ≤ vec_len unlimited.old.compact + vec_capacity unlimited.new.compact + length others.now }
    ensures rows { vec_len unlimited.new.rows + vec_capacity unlimited.old.rows
        ≤ vec_len unlimited.old.rows + vec_capacity unlimited.new.rows + length others.now }
{
    for other in others {
        unlimited.put_reserved(other.full(width).moved(by));
    }
}

/// Adds rows to the list, their values shifted by the given offset. Does not allocate.
fn put_rows(unlimited: &mut UnlimitedRows, others: &[Ranked], by: usize, count: usize)
    requires room { HasRoom unlimited.old (length others.now) }
    requires there { All (IsIn count) others.now }
    requires fits { by + count ≤ 2 ^ 64 - 1 }
    ensures put { IsPermutation (all_of unlimited.old ++ map (moved by) others.now)
        (all_of unlimited.new) }
{
    for other in others {
        unlimited.put_reserved(other.moved(by));
    }
}

/// Adds all rows of another list, whose values are after these. After `Err` nothing has changed.
pub(crate) fn join_all(
    unlimited: &mut UnlimitedRows,
    cells: &mut Vec<Cell>,
    others: &UnlimitedRows,
    more: Vec<Cell>,
) -> Result<(), Memory>
    requires mine { All (IsIn (length cells.old.items)) (all_of unlimited.old) }
    requires theirs { All (IsIn (length more.items)) (all_of others.now) }
    ensures joined { OnOk result (KeepsFirst row_order None
        (map (row_of cells.old.items) (all_of unlimited.old)
        ++ map (row_of more.items) (all_of others.now))
        (map (row_of cells.new.items) (all_of unlimited.new))) }
    ensures there { All (IsIn (length cells.new.items)) (all_of unlimited.new) }
    ensures rows { OnErr result (all_of unlimited.new ≡ all_of unlimited.old) }
    ensures cells { OnErr result (cells.new.items ≡ cells.old.items) }
{
    let by = cells.len();
    let count = more.len();
    unlimited.make_room(others.len())?;
    append(cells, more)?;
    put_compact_rows(
        unlimited,
        others.compact.as_slice(),
        others.width,
        by,
        count,
    );
    put_rows(unlimited, others.rows.as_slice(), by, count);
    Ok(())
}
