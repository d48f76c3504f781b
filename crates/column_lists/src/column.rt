//! An extra column: a number for each row, and which rows have a value.
//!
//! If each row has one, no validity list is stored, so a scan of such a column reads only its numbers.

ghost use Rattle.std.specs.Prelude.{true, ◌≡◌, ◌≤◌, ◌<◌, [], ◌∷◌, ◌++◌, All, IfOk, IfSome, IfNone, OnOk, OnErr, IsTrue, Some, None, length, map, take, get_or};
ghost use Rattle.std.specs.Option.{is_some};
ghost use Rattle.column_lists.specs.Columns.{cell_at, cells_of, or_zero, IsFront, IsKept};
ghost use Rattle.column_lists.specs.Filling.{IsFilled, IsPresenceUpTo};

use crate::column_push::{push_present, push_to_whole};
use crate::nulls::{fill_presence, is_whole, presence_appended, presence_at};
use crate::places::{fill, gather, make_room};
use sky_io::Memory;
use std::alloc::Global;
use std::marker::Model;

/// The values of rows in an extra column, each a value or `None` for NULL.
#[derive(Drop)]
pub struct Column {
    /// A number for each row: its value, or 0 for NULL.
    values: Vec<i64>,
    /// Which rows have a value, or empty if all have.
    present: Vec<bool>,
}

impl Model for Column {
    ghost use Rattle.std.specs.Prelude.{ℤ, List, Option};
    ghost use Rattle.column_lists.specs.Columns.{cells_of, IsKept};

    ghost Value = { List (Option ℤ) };

    ghost view = { λ c. cells_of c.values.items c.present.items };

    ghost invariant = { λ c. IsKept c.values.items c.present.items };
}

impl Column {
    /// Creates a column without rows. Does not allocate.
    pub fn new(alloc: Global) -> Column
        ensures { result ≡ [] }
    {
        Column {
            values: Vec::new(alloc),
            present: Vec::new(alloc),
        }
    }

    /// Returns the number of rows. Does not allocate.
    pub fn len(&self) -> usize
        ensures { result ≡ length self.now }
    {
        self.values.len()
    }

    /// Returns the value of the row with this number, from 0. Does not allocate.
    pub fn get(&self, i: usize) -> Option<i64>
        requires { i < length self.now }
        ensures { result ≡ get_or self.now i None }
    {
        value_at(self.values.as_slice(), self.present.as_slice(), i)
    }

    /// Returns a number for each row: its value, or 0 for NULL. Does not allocate.
    pub fn values(&self) -> &[i64]
        ensures { result.now ≡ map or_zero self.now }
    {
        self.values.as_slice()
    }

    /// Returns which rows have a value; `None` only if all have. Does not allocate.
    pub fn present(&self) -> Option<&[bool]>
        ensures some { IfSome result (λ present. present.now ≡ map is_some self.now) }
        ensures none { IfNone result (All (λ cell. IsTrue (is_some cell)) self.now) }
    {
        let present = self.present.as_slice();
        if present.is_empty() {
            None
        } else {
            Some(present)
        }
    }

    /// Appends a value. Allocates memory. If an allocation fails, nothing changes.
    pub fn push(&mut self, value: Option<i64>) -> Result<(), Memory>
        ensures ok { OnOk result (self.new ≡ self.old ++ value ∷ []) }
        ensures err { OnErr result (self.new ≡ self.old) }
    {
        if self.present.is_empty() {
            push_to_whole(&mut self.values, &mut self.present, value)
        } else {
            push_present(&mut self.values, &mut self.present, value)
        }
    }

    /// Returns the column of the rows with these numbers, counted from 0, in the order of the list. Allocates its
    /// memory once.
    pub fn at(&self, alloc: Global, places: &[u32]) -> Result<Column, Memory>
        requires { All (λ place. place < length self.now) places.now }
        ensures { IfOk result (λ column.
            column ≡ map (λ place. get_or self.now place None) places.now) }
    {
        let values = gather(alloc, self.values.as_slice(), places)?;
        let present = presence_at(alloc, self.present.as_slice(), places, self.values.len())?;
        Ok(of_parts(values, present))
    }

    /// Creates a column without rows, with room for the given number of them. Allocates memory for their numbers once.
    pub(crate) fn with_room(alloc: Global, count: usize) -> Result<Column, Memory>
        ensures { IfOk result (λ column. column ≡ []) }
    {
        Ok(Column {
            values: Vec::with_capacity(alloc, count)?,
            present: Vec::new(alloc),
        })
    }

    /// Appends the values of the next rows of the list to those of the first ones, up to `count` in all. Allocates
    /// memory if the room is missing, or for the column's first NULL. If an allocation fails, nothing changes.
    pub(crate) fn fill(
        &mut self,
        table: &Column,
        places: &[u32],
        count: usize,
    ) -> Result<(), Memory>
        requires there { All (λ place. place < length table.now) places.now }
        requires few { count ≤ length places.now }
        requires more { length self.old ≤ count }
        requires so_far { IsFilled (length self.old) table.now places.now self.old }
        ensures ok { OnOk result (IsFilled count table.now places.now self.new) }
        ensures front { IsFront self.old self.new }
    {
        let values = table.values.as_slice();
        let present = table.present.as_slice();
        fill_lists(
            &mut self.values,
            &mut self.present,
            values,
            present,
            places,
            count,
        )
    }

    /// Returns the column with another's values appended. Allocates memory. If an allocation fails, the column is
    /// dropped.
    pub fn followed_by(self, alloc: Global, other: &Column) -> Result<Column, Memory>
        ensures { IfOk result (λ column. column ≡ self ++ other.now) }
    {
        let Column { values, present } = self;
        let count = values.len();
        let shown = other.present.as_slice();
        let present = presence_appended(alloc, present, count, shown, other.values.len())?;
        let mut values = values;
        values.extend_from_slice(other.values.as_slice())?;
        Ok(of_parts(values, present))
    }

    /// Truncates the column to the first `count` rows. Does not allocate.
    pub fn truncate(&mut self, count: usize)
        ensures { self.new ≡ take count self.old }
    {
        self.values.truncate(count);
        self.present.truncate(count);
    }
}

/// Creates the column of these numbers and this validity list.
fn of_parts(values: Vec<i64>, present: Vec<bool>) -> Column
    requires { IsKept values.items present.items }
    ensures { result ≡ cells_of values.items present.items }
{
    Column { values, present }
}

/// Appends the numbers and the validity of the next rows of the list to those of the first ones, or neither.
#[tactic(auto, using(crate::proofs::Filling::still_whole))]
fn fill_lists(
    found: &mut Vec<i64>,
    found_present: &mut Vec<bool>,
    values: &[i64],
    present: &[bool],
    places: &[u32],
    count: usize,
) -> Result<(), Memory>
    requires there { All (λ place. place < length values.now) places.now }
    requires few { count ≤ length places.now }
    requires more { length found.old.items ≤ count }
    requires so_far { IsFilled (length found.old.items) values.now places.now found.old.items }
    requires present { IsPresenceUpTo (length found.old.items) present.now places.now
        found_present.old.items }
    ensures filled { OnOk result (IsFilled count values.now places.now found.new.items) }
    ensures present { OnOk result
        (IsPresenceUpTo count present.now places.now found_present.new.items) }
    ensures err { OnErr result (found.new.items ≡ found.old.items) }
    ensures err_present { OnErr result (found_present.new.items ≡ found_present.old.items) }
{
    make_room(found, count)?;
    let from = found.len();
    if found_present.is_empty() && is_whole(present, places, from, count) {
        fill(found, values, places, count);
        return Ok(());
    }
    make_room(found_present, places.len())?;
    fill(found, values, places, count);
    fill_presence(found_present, present, places, from, count);
    Ok(())
}

/// Returns the value of the row with number `i`.
fn value_at(values: &[i64], present: &[bool], i: usize) -> Option<i64>
    requires there { i < length values.now }
    requires kept { IsKept values.now present.now }
    ensures { result ≡ cell_at values.now present.now i }
{
    if *present.get(i).unwrap_or(&true) {
        Some(values[i])
    } else {
        None
    }
}
