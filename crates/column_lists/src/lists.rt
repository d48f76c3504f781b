//! The columns of rows: a list for each, in which equal indexes belong to the same row.
ghost use Rattle.std.specs.Prelude.{◌≡◌, ◌+◌, ◌<◌, ◌≤◌, [], ◌∷◌, ◌++◌, length, get_or, All};
ghost use Rattle.std.specs.Prelude.{IfOk, OnOk, OnErr, pos};
ghost use Rattle.sky_vector.specs.Points.{IsWithin};
ghost use Rattle.sky_vector.specs.Pos.{point};
ghost use Rattle.column_lists.specs.Filling.{AreBegun, AreFilled};
ghost use Rattle.column_lists.specs.Columns.{AreAligned, AreRows, Begins, IsFront, first_rows, no_rows, row_at, row_behind, rows_at, rows_appended};
ghost use Rattle.table_rules.specs.declared.limits.TheConstants.{FURTHER_COLUMNS_MOST};

use crate::column::Column;
use crate::further::{
    cells_at, columns_appended, columns_at, empty_columns, fill_columns, push_cells, truncate_cells,
};
use crate::parallel::gather_all;
use crate::places::{extended, fill_list, gather, part_at};
use crate::row::Row;
use sky_io::Memory;
use sky_vector::Pos;
use std::alloc::Global;
use std::marker::Model;
use std::thread::Threads;

/// The ids of rows, the components of their positions, and their extra columns.
#[derive(Drop)]
pub struct Lists {
    ids: Vec<i64>,
    xs: Vec<i32>,
    ys: Vec<i32>,
    zs: Vec<i32>,
    further: Vec<Column>,
}

impl Model for Lists {
    ghost use Rattle.column_lists.specs.Columns.{Parts};

    ghost Value = { Parts };

    ghost view = { λ l. record { ids = l.ids.items; xs = l.xs.items; ys = l.ys.items; zs = l.zs.items; further = l.further.items } };
}

impl Lists {
    /// Creates `width` extra columns without rows, with room for `room` rows. Allocates memory for the list of them,
    /// and for each column once if room is asked for.
    pub fn new(alloc: Global, width: u32, room: usize) -> Result<Lists, Memory>
        ensures { IfOk result (λ lists. lists ≡ no_rows width) }
    {
        let further = empty_columns(alloc, width, room)?;
        Ok(Lists {
            ids: Vec::with_capacity(alloc, room)?,
            xs: Vec::with_capacity(alloc, room)?,
            ys: Vec::with_capacity(alloc, room)?,
            zs: Vec::with_capacity(alloc, room)?,
            further,
        })
    }

    /// Appends a row. Allocates memory. If an allocation fails, nothing changes.
    pub fn push(&mut self, row: &Row) -> Result<(), Memory>
        requires aligned { AreAligned self.old }
        requires wide { length row.now.further ≡ length self.old.further }
        ensures ok { OnOk result (self.new ≡ row_behind self.old row.now) }
        ensures err { OnErr result (self.new ≡ self.old) }
    {
        let count = self.ids.len();
        match self.push_parts(row) {
            Ok(()) => Ok(()),
            Err(memory) => {
                self.truncate(count);
                Err(memory)
            },
        }
    }

    /// Appends a row. If an allocation fails, some of the columns have its value and some do not.
    fn push_parts(&mut self, row: &Row) -> Result<(), Memory>
        requires aligned { AreAligned self.old }
        requires wide { length row.now.further ≡ length self.old.further }
        ensures ok { OnOk result (self.new ≡ row_behind self.old row.now) }
        ensures err { OnErr result (Begins self.old self.new) }
    {
        let at = row.pos();
        push_id(&mut self.ids, row.id())?;
        push_part(&mut self.xs, at.x)?;
        push_part(&mut self.ys, at.y)?;
        push_part(&mut self.zs, at.z)?;
        push_cells(&mut self.further, row)
    }

    /// Returns the row with this number, from 0. Does not allocate.
    pub fn row(&self, i: usize) -> Row
        requires rows { AreRows self.now }
        requires there { i < length self.now.ids }
        requires few { length self.now.further ≤ FURTHER_COLUMNS_MOST }
        ensures { result ≡ row_at self.now i }
    {
        let at = self.position(i);
        Row::of_cells(self.ids[i], at, cells_at(self.further.as_slice(), i))
    }

    /// Returns the position of the row with this number, from 0. Does not allocate.
    pub fn position(&self, i: usize) -> Pos
        requires rows { AreRows self.now }
        requires there { i < length self.now.ids }
        ensures { point result ≡ (row_at self.now i).at }
    {
        point_of(
            part_at(self.xs.as_slice(), i),
            part_at(self.ys.as_slice(), i),
            part_at(self.zs.as_slice(), i),
        )
    }

    /// Returns the rows with these numbers, counted from 0, in the order of the list. Allocates memory for each column
    /// once.
    pub fn at(&self, alloc: Global, places: &[u32]) -> Result<Lists, Memory>
        requires aligned { AreAligned self.now }
        requires there { All (λ place. place < length self.now.ids) places.now }
        ensures { IfOk result (λ lists. lists ≡ rows_at self.now places.now) }
    {
        let ids = gather(alloc, self.ids.as_slice(), places)?;
        let xs = gather(alloc, self.xs.as_slice(), places)?;
        let ys = gather(alloc, self.ys.as_slice(), places)?;
        let zs = gather(alloc, self.zs.as_slice(), places)?;
        let further = columns_at(alloc, self.further.as_slice(), places)?;
        Ok(Lists {
            ids,
            xs,
            ys,
            zs,
            further,
        })
    }

    /// Returns the rows that `at` returns, gathered by the given number of threads.
    pub fn at_by<R: Threads + Sync>(
        &self,
        rt: &R,
        alloc: Global,
        threads: u32,
        places: &[u32],
    ) -> Result<Lists, Memory>
        requires aligned { AreAligned self.now }
        requires there { All (λ place. place < length self.now.ids) places.now }
        ensures { IfOk result (λ lists. lists ≡ rows_at self.now places.now) }
    {
        if threads < 2 {
            return self.at(alloc, places);
        }
        let found = gather_all(rt, alloc, threads, self, places)?;
        let ((ids, xs, ys, zs), further) = found;
        Ok(Lists {
            ids,
            xs,
            ys,
            zs,
            further,
        })
    }

    /// Appends the next rows of a list of row numbers to those of the first ones, from a table, up to `count` in all.
    /// So many lists can be gathered from one part of the table, one after the other, while that part is in the
    /// processor's cache. Allocates memory if the room is missing, or for a column's first NULL. If an allocation
    /// fails, some columns have the next values and some do not.
    pub fn fill(&mut self, table: &Lists, places: &[u32], count: usize) -> Result<(), Memory>
        requires aligned { AreAligned table.now }
        requires there { All (λ place. place < length table.now.ids) places.now }
        requires few { count ≤ length places.now }
        requires more { length self.old.ids ≤ count }
        requires begun { AreBegun table.now places.now self.old }
        ensures ok { OnOk result (AreFilled count table.now places.now self.new) }
        ensures err { OnErr result (Begins self.old self.new) }
    {
        fill_list(&mut self.ids, table.ids.as_slice(), places, count)?;
        fill_list(&mut self.xs, table.xs.as_slice(), places, count)?;
        fill_list(&mut self.ys, table.ys.as_slice(), places, count)?;
        fill_list(&mut self.zs, table.zs.as_slice(), places, count)?;
        fill_columns(&mut self.further, table.further.as_slice(), places, count)
    }

    /// Returns the columns with the rows of another table appended. Allocates memory for each column. If an allocation
    /// fails, the columns are dropped.
    pub fn followed_by(self, alloc: Global, other: &Lists) -> Result<Lists, Memory>
        requires { length other.now.further ≡ length self.further }
        ensures { IfOk result (λ lists. lists ≡ rows_appended self other.now) }
    {
        let Lists {
            ids,
            xs,
            ys,
            zs,
            further,
        } = self;
        Ok(Lists {
            ids: extended(ids, other.ids.as_slice())?,
            xs: extended(xs, other.xs.as_slice())?,
            ys: extended(ys, other.ys.as_slice())?,
            zs: extended(zs, other.zs.as_slice())?,
            further: columns_appended(alloc, further, other.further.as_slice())?,
        })
    }

    /// Returns the ids. Does not allocate.
    pub fn ids(&self) -> &[i64]
        ensures { result.now ≡ self.now.ids }
    {
        self.ids.as_slice()
    }

    /// Returns the first components of the positions. Does not allocate.
    pub fn xs(&self) -> &[i32]
        ensures { result.now ≡ self.now.xs }
    {
        self.xs.as_slice()
    }

    /// Returns the second components of the positions. Does not allocate.
    pub fn ys(&self) -> &[i32]
        ensures { result.now ≡ self.now.ys }
    {
        self.ys.as_slice()
    }

    /// Returns the third components of the positions. Does not allocate.
    pub fn zs(&self) -> &[i32]
        ensures { result.now ≡ self.now.zs }
    {
        self.zs.as_slice()
    }

    /// Returns the extra columns. Does not allocate.
    pub(crate) fn extra(&self) -> &[Column]
        ensures { result.now ≡ self.now.further }
    {
        self.further.as_slice()
    }

    /// Returns the extra column with this index, from 0. Does not allocate.
    pub fn further(&self, k: usize) -> &Column
        requires { k < length self.now.further }
        ensures { result.now ≡ get_or self.now.further k [] }
    {
        &self.further[k]
    }

    /// Truncates the columns to the first `count` rows.
    fn truncate(&mut self, count: usize)
        ensures { self.new ≡ first_rows count self.old }
    {
        self.ids.truncate(count);
        self.xs.truncate(count);
        self.ys.truncate(count);
        self.zs.truncate(count);
        truncate_cells(&mut self.further, count);
    }
}

/// Creates the position with these components.
fn point_of(x: i32, y: i32, z: i32) -> Pos
    requires x { IsWithin x }
    requires y { IsWithin y }
    requires z { IsWithin z }
    ensures { point result ≡ record { x = x; y = y; z = z } }
{
    Pos {
        x: i64::from(x),
        y: i64::from(y),
        z: i64::from(z),
    }
}

/// Appends an id.
#[tactic(auto, using(crate::proofs::Gathering::front_same, crate::proofs::Gathering::front_more))]
fn push_id(ids: &mut Vec<i64>, id: i64) -> Result<(), Memory>
    ensures ok { OnOk result (ids.new.items ≡ ids.old.items ++ id ∷ []) }
    ensures front { IsFront ids.old.items ids.new.items }
{
    ids.push(id)?;
    Ok(())
}

/// Appends a component of a position.
#[tactic(auto, using(crate::proofs::Gathering::front_same, crate::proofs::Gathering::front_more))]
fn push_part(parts: &mut Vec<i32>, part: i64) -> Result<(), Memory>
    requires { IsWithin part }
    ensures ok { OnOk result (parts.new.items ≡ parts.old.items ++ part ∷ []) }
    ensures front { IsFront parts.old.items parts.new.items }
{
    parts.push(part as i32)?;
    Ok(())
}
