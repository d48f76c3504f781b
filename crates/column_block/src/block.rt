//! The columns of some rows of a table.
ghost use Rattle.std.specs.Prelude.{◌≡◌, ◌≢◌, ◌+◌, ◌<◌, ◌≤◌, length, map, get_or, All, IfOk, false};
ghost use Rattle.sky_vector.specs.Points.{IsWithin};
ghost use Rattle.table_rules.specs.Objects.{IsRow};
ghost use Rattle.table_rules.specs.declared.limits.TheConstants.{FIRST_COLUMNS};
ghost use Rattle.column_lists.specs.Columns.{AreRows, objects_of};
ghost use Rattle.sky_row.specs.Columns.{column_in, no_row, objects_at};
ghost use Rattle.column_lists.specs.Filling.{AreBegun};

use crate::id_filter::IdFilter;
use sky_io::Memory;
use sky_row::{Column, Lists, Row, Rows};
use std::alloc::Global;
use std::marker::Model;
use table_rules::limits::FIRST_COLUMNS;

/// The ids, the components of the positions and the extra columns of some rows, and a filter of the ids.
#[derive(Drop)]
pub struct Block {
    lists: Lists,
    filter: IdFilter,
}

impl Model for Block {
    ghost use Rattle.std.specs.Prelude.{length};
    ghost use Rattle.column_lists.specs.Columns.{AreRows, objects_of};
    ghost use Rattle.column_block.specs.Blocks.{Stored};
    ghost use Rattle.column_block.specs.Filters.{CoversAll};

    ghost Value = { Stored };

    ghost view = { λ b. record { width = length b.lists.further; objects = objects_of b.lists } };

    ghost invariant = { λ b. AreRows b.lists × CoversAll b.filter b.lists.ids };
}

impl Block {
    /// Creates the block of the table's rows with these numbers, counted from 0, in the order of the list. Allocates
    /// memory for each column, and for the filter, once.
    pub fn build(alloc: Global, rows: &Rows, places: &[u32]) -> Result<Block, Memory>
        requires { All (λ place. place < length rows.now.objects) places.now }
        ensures { IfOk result (λ block. block ≡ record {
          width = length rows.now.names;
          objects = objects_at rows.now.objects places.now;
        }) }
    {
        let width = rows.schema().width() - FIRST_COLUMNS as u32;
        let begun = Lists::new(alloc, width, places.len())?;
        Block::finish(alloc, rows.lists(), places, begun)
    }

    /// Creates the block of a table's rows with these numbers, counted from 0, in the order of the list. `begun` has
    /// the first of them; the others are appended. Allocates memory for the filter, and if the room for rows is missing,
    /// or for a column's first NULL. If an allocation fails, `begun` is dropped.
    pub fn finish(
        alloc: Global,
        table: &Lists,
        places: &[u32],
        begun: Lists,
    ) -> Result<Block, Memory>
        requires rows { AreRows table.now }
        requires there { All (λ place. place < length table.now.ids) places.now }
        requires begun { AreBegun table.now places.now begun }
        ensures { IfOk result (λ block. block ≡ record {
          width = length table.now.further;
          objects = objects_at (objects_of table.now) places.now;
        }) }
    {
        let mut lists = begun;
        lists.fill(table, places, places.len())?;
        let filter = IdFilter::of(alloc, lists.ids())?;
        Ok(Block { lists, filter })
    }

    /// Returns the number of rows. Does not allocate.
    pub fn len(&self) -> usize
        ensures count { result ≡ length self.now.objects }
        ensures rows { All IsRow self.now.objects }
        ensures wide { All (λ o. length o.further ≡ self.now.width) self.now.objects }
    {
        self.lists.ids().len()
    }

    /// Returns the row with this number, from 0. Does not allocate.
    pub fn row(&self, i: u32) -> Row
        requires { i < length self.now.objects }
        ensures value { result ≡ get_or self.now.objects i no_row }
        ensures wide { length result.further ≡ self.now.width }
    {
        self.lists.row(i as usize)
    }

    /// Returns the ids of the rows. Does not allocate.
    pub fn ids(&self) -> &[i64]
        ensures { result.now ≡ map (λ o. o.id) self.now.objects }
    {
        self.lists.ids()
    }

    /// Returns false only if no row has the id. Most ids of other blocks give false. Does not allocate.
    pub fn may_have_id(&self, id: i64) -> bool
        ensures { result ≡ false → All (λ o. o.id ≢ id) self.now.objects }
    {
        self.filter.may_have(id)
    }

    /// Returns the x of the rows. Does not allocate.
    pub fn xs(&self) -> &[i32]
        ensures value { result.now ≡ map (λ o. o.at.x) self.now.objects }
        ensures within { All IsWithin result.now }
    {
        self.lists.xs()
    }

    /// Returns the y of the rows. Does not allocate.
    pub fn ys(&self) -> &[i32]
        ensures value { result.now ≡ map (λ o. o.at.y) self.now.objects }
        ensures within { All IsWithin result.now }
    {
        self.lists.ys()
    }

    /// Returns the z of the rows. Does not allocate.
    pub fn zs(&self) -> &[i32]
        ensures value { result.now ≡ map (λ o. o.at.z) self.now.objects }
        ensures within { All IsWithin result.now }
    {
        self.lists.zs()
    }

    /// Returns an extra column by its number among all columns, so from `FIRST_COLUMNS`: its numbers, and which rows
    /// have a value. Does not allocate.
    pub fn further(&self, col: u32) -> &Column
        requires first { FIRST_COLUMNS ≤ col }
        requires last { col < FIRST_COLUMNS + self.now.width }
        ensures { result.now ≡ column_in self.now.objects col }
    {
        self.lists.further(col as usize - FIRST_COLUMNS)
    }
}
