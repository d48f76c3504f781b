//! The rows of a catalogue in any order, as columns.
//!
//! A scan reads a column as one slice; a row is built from the columns only if it is asked for. Only the rows are
//! visible to contracts.
ghost use Rattle.std.specs.Prelude.{◌≡◌, ◌+◌, ◌<◌, ◌≤◌, ◌^◌, [], ◌∷◌, ◌++◌, length, map, All};
ghost use Rattle.std.specs.Prelude.{IfOk, IsTrue, OnErr, OnOk, get_or, slice_get, Some};
ghost use Rattle.sky_vector.specs.Points.{IsWithin, is_admissible};
ghost use Rattle.sky_vector.specs.Pos.{point};
ghost use Rattle.table_rules.specs.Objects.{IsRow};
ghost use Rattle.sky_row.specs.Columns.{AreListed, column_in, no_row, objects_at};
ghost use Rattle.column_lists.specs.Columns.{AreRows, objects_of};
ghost use Rattle.table_rules.specs.declared.limits.TheConstants.{FIRST_COLUMNS, ROWS_MOST};

use crate::schema::Schema;
use column_lists::{Column, Lists, Row};
use sky_io::Memory;
use sky_vector::Pos;
use std::alloc::Global;
use std::marker::Model;
use std::thread::Threads;
use table_rules::limits::FIRST_COLUMNS;

/// Rows in any order, each with a value for each extra column.
#[derive(Drop)]
pub struct Columns {
    schema: Schema,
    lists: Lists,
}

impl Model for Columns {
    ghost use Rattle.table_rules.specs.Objects.{Catalogue};
    ghost use Rattle.sky_row.specs.Columns.{AreColumns};
    ghost use Rattle.column_lists.specs.Columns.{objects_of};

    ghost Value = { Catalogue };

    ghost view = { λ c. record { names = c.schema; objects = objects_of c.lists } };

    ghost invariant = { λ c. AreColumns c.schema c.lists };
}

impl Columns {
    /// Creates these columns without rows. Allocates memory for the list of them.
    #[tactic(auto, using(crate::proofs::Rowed::no_columns))]
    pub fn new(alloc: Global, schema: Schema) -> Result<Columns, Memory>
        ensures { IfOk result (λ columns. columns ≡ record { names = schema; objects = [] }) }
    {
        let lists = Lists::new(alloc, schema.width() - FIRST_COLUMNS as u32, 0)?;
        Ok(Columns { schema, lists })
    }

    /// Appends the row. Allocates memory. If an allocation fails, nothing changes.
    pub fn push(&mut self, row: &Row) -> Result<(), Memory>
        requires room { length self.old.objects < ROWS_MOST }
        requires wide { length row.now.further ≡ length self.old.names }
        ensures ok { OnOk result (self.new.objects ≡ self.old.objects ++ row.now ∷ []) }
        ensures names { self.new.names ≡ self.old.names }
        ensures err { OnErr result (self.new ≡ self.old) }
    {
        push_row(&mut self.lists, row)
    }

    /// Returns the number of rows. Does not allocate.
    pub fn len(&self) -> u32
        ensures count { result ≡ length self.now.objects }
        ensures limits { AreListed self.now }
    {
        self.lists.ids().len() as u32
    }

    /// Returns the row with this number, from 0. Does not allocate.
    pub fn get(&self, i: u32) -> Row
        requires { i < length self.now.objects }
        ensures value { slice_get self.now.objects i ≡ Some result }
        ensures row { IsRow result }
        ensures wide { length result.further ≡ length self.now.names }
    {
        self.lists.row(i as usize)
    }

    /// Returns the position of the row with this number, from 0, without its other values. Does not allocate.
    pub fn position(&self, i: u32) -> Pos
        requires { i < length self.now.objects }
        ensures value { point result ≡ (get_or self.now.objects i no_row).at }
        ensures admissible { IsTrue (is_admissible (point result)) }
    {
        self.lists.position(i as usize)
    }

    /// Returns the names of the columns. Does not allocate.
    pub fn schema(&self) -> &Schema
        ensures { result.now ≡ self.now.names }
    {
        &self.schema
    }

    /// Returns the columns themselves, without their names. Does not allocate.
    pub fn lists(&self) -> &Lists
        ensures objects { objects_of result.now ≡ self.now.objects }
        ensures rows { AreRows result.now }
        ensures width { length result.now.further ≡ length self.now.names }
    {
        &self.lists
    }

    /// Returns the ids of the rows. Does not allocate.
    pub fn ids(&self) -> &[i64]
        ensures { result.now ≡ map (λ o. o.id) self.now.objects }
    {
        self.lists.ids()
    }

    /// Returns the x of the rows. Does not allocate.
    pub fn xs(&self) -> &[i32]
        ensures value { result.now ≡ map (λ o. o.at.x) self.now.objects }
        ensures within { All IsWithin result.now }
    {
        self.lists.xs()
    }

    /// Returns the y of the rows. Does not allocate.
    pub fn ys(&self) -> &[i32]
        ensures value { result.now ≡ map (λ o. o.at.y) self.now.objects }
        ensures within { All IsWithin result.now }
    {
        self.lists.ys()
    }

    /// Returns the z of the rows. Does not allocate.
    pub fn zs(&self) -> &[i32]
        ensures value { result.now ≡ map (λ o. o.at.z) self.now.objects }
        ensures within { All IsWithin result.now }
    {
        self.lists.zs()
    }

    /// Returns an extra column by its number among all columns, so from `FIRST_COLUMNS`. Does not allocate.
    pub fn further(&self, col: u32) -> &Column
        requires first { FIRST_COLUMNS ≤ col }
        requires last { col < FIRST_COLUMNS + length self.now.names }
        ensures { result.now ≡ column_in self.now.objects col }
    {
        self.lists.further(col as usize - FIRST_COLUMNS)
    }

    /// Returns the rows with those of another table appended, which has equally many extra columns. Allocates memory
    /// for each column. If an allocation fails, the rows are dropped.
    pub fn followed_by(self, alloc: Global, other: &Columns) -> Result<Columns, Memory>
        requires wide { length other.now.names ≡ length self.names }
        requires few { length self.objects + length other.now.objects ≤ ROWS_MOST }
        ensures names { IfOk result (λ columns. columns.names ≡ self.names) }
        ensures objects { IfOk result (λ columns.
            columns.objects ≡ self.objects ++ other.now.objects) }
    {
        let Columns { schema, lists } = self;
        let lists = lists.followed_by(alloc, other.lists())?;
        Ok(Columns { schema, lists })
    }

    /// Returns the rows with these numbers, counted from 0, in the order of the list. Allocates memory for each column
    /// once.
    pub fn at(self, alloc: Global, places: &[u32]) -> Result<Columns, Memory>
        requires few { length places.now ≤ ROWS_MOST }
        requires there { All (λ place. place < length self.objects) places.now }
        ensures names { IfOk result (λ columns. columns.names ≡ self.names) }
        ensures objects { IfOk result (λ columns.
            columns.objects ≡ objects_at self.objects places.now) }
    {
        let Columns { schema, lists } = self;
        let lists = lists.at(alloc, places)?;
        Ok(Columns { schema, lists })
    }

    /// Returns the rows that `at` returns, gathered by the given number of threads. A thread that cannot be started costs
    /// only time.
    pub fn at_by<R: Threads + Sync>(
        self,
        rt: &R,
        alloc: Global,
        threads: u32,
        places: &[u32],
    ) -> Result<Columns, Memory>
        requires few { length places.now ≤ ROWS_MOST }
        requires there { All (λ place. place < length self.objects) places.now }
        ensures names { IfOk result (λ columns. columns.names ≡ self.names) }
        ensures objects { IfOk result (λ columns.
            columns.objects ≡ objects_at self.objects places.now) }
    {
        let Columns { schema, lists } = self;
        let lists = lists.at_by(rt, alloc, threads, places)?;
        Ok(Columns { schema, lists })
    }
}

/// Appends the row.
#[tactic(auto, using(column_lists::proofs::Rowed::one_more))]
fn push_row(lists: &mut Lists, row: &Row) -> Result<(), Memory>
    requires are { AreRows lists.old }
    requires wide { length row.now.further ≡ length lists.old.further }
    ensures width { length lists.new.further ≡ length lists.old.further }
    ensures are { AreRows lists.new }
    ensures count { length lists.new.ids ≤ length lists.old.ids + 1 }
    ensures ok { OnOk result (objects_of lists.new ≡ objects_of lists.old ++ row.now ∷ []) }
    ensures err { OnErr result (lists.new ≡ lists.old) }
{
    let _id = row.id();
    match lists.push(row) {
        Ok(()) => Ok(()),
        Err(memory) => Err(memory),
    }
}
