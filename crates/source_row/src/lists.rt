//! The columns of sources: a list for each, in which equal indexes belong to the same source.
ghost use Rattle.std.specs.Prelude.{◌≡◌, ◌<◌, ℕ, [], ◌∷◌, ◌++◌, length, get_or, All, IfOk, OnOk, None};
ghost use Rattle.source_row.specs.SourceColumns.{AreEven, no_sources, parts_appended, parts_at, source_behind};

use sky_io::Memory;
use sky_row::{Column, columns_appended, columns_at, empty_columns, gather};
use std::alloc::Global;
use std::marker::Model;

/// Appends the extra values of a source to their columns. If an allocation fails, some columns have the new value and
/// some do not.
fn push_cells(columns: &mut Vec<Column>, cells: &[Option<i64>]) -> Result<(), Memory>
    requires wide { length cells.now ≡ length columns.old.items }
    ensures len { length columns.new.items ≡ length columns.old.items }
    ensures ok { OnOk result ((k : ℕ) → k < length columns.old.items
        → get_or columns.new.items k [] ≡ get_or columns.old.items k [] ++ get_or cells.now k None ∷ []) }
{
    for k in 0..columns.len() {
        columns[k].push(cells[k])?;
    }
    Ok(())
}

/// The ids of sources, those of their objects, and their extra columns.
#[derive(Drop)]
pub struct SourceLists {
    ids: Vec<i64>,
    objects: Vec<i64>,
    further: Vec<Column>,
}

impl Model for SourceLists {
    ghost use Rattle.source_row.specs.SourceColumns.{SourceParts};

    ghost Value = { SourceParts };

    ghost view = { λ l. record { ids = l.ids.items; objects = l.objects.items; further = l.further.items } };
}

impl SourceLists {
    /// Creates `width` extra columns without sources. Allocates memory for the list of them.
    pub fn new(alloc: Global, width: u32) -> Result<SourceLists, Memory>
        ensures { IfOk result (λ lists. lists ≡ no_sources width) }
    {
        let further = empty_columns(alloc, width, 0)?;
        Ok(SourceLists {
            ids: Vec::new(alloc),
            objects: Vec::new(alloc),
            further,
        })
    }

    /// Appends a source. Allocates memory. If an allocation fails, some of the columns have its value and some do not.
    pub fn push(&mut self, id: i64, object: i64, cells: &[Option<i64>]) -> Result<(), Memory>
        requires wide { length cells.now ≡ length self.old.further }
        ensures { OnOk result (self.new
            ≡ source_behind self.old (record { id = id; object = object; further = cells.now })) }
    {
        self.ids.push(id)?;
        self.objects.push(object)?;
        push_cells(&mut self.further, cells)
    }

    /// Returns the number of sources. Does not allocate.
    pub fn len(&self) -> usize
        ensures { result ≡ length self.now.ids }
    {
        self.ids.len()
    }

    /// Returns the ids. Does not allocate.
    pub fn ids(&self) -> &[i64]
        ensures { result.now ≡ self.now.ids }
    {
        self.ids.as_slice()
    }

    /// Returns the ids of the objects. Does not allocate.
    pub fn objects(&self) -> &[i64]
        ensures { result.now ≡ self.now.objects }
    {
        self.objects.as_slice()
    }

    /// Returns an extra column by its number among these, from 0. Does not allocate.
    pub fn further(&self, k: usize) -> &Column
        requires { k < length self.now.further }
        ensures { result.now ≡ get_or self.now.further k [] }
    {
        &self.further[k]
    }

    /// Returns the sources with these numbers, counted from 0, in the order of the list. Allocates memory for each column
    /// once.
    pub fn at(&self, alloc: Global, places: &[u32]) -> Result<SourceLists, Memory>
        requires even { AreEven self.now }
        requires there { All (λ place. place < length self.now.ids) places.now }
        ensures { IfOk result (λ lists. lists ≡ parts_at self.now places.now) }
    {
        let ids = gather(alloc, self.ids.as_slice(), places)?;
        let objects = gather(alloc, self.objects.as_slice(), places)?;
        let further = columns_at(alloc, self.further.as_slice(), places)?;
        Ok(SourceLists {
            ids,
            objects,
            further,
        })
    }

    /// Returns the sources with those of another list after them, which has equally many extra columns. Allocates memory
    /// for each column. If an allocation fails, the sources are dropped.
    pub fn followed_by(self, alloc: Global, other: &SourceLists) -> Result<SourceLists, Memory>
        requires wide { length other.now.further ≡ length self.further }
        ensures { IfOk result (λ lists. lists ≡ parts_appended self other.now) }
    {
        let SourceLists {
            mut ids,
            mut objects,
            further,
        } = self;
        ids.extend_from_slice(other.ids.as_slice())?;
        objects.extend_from_slice(other.objects.as_slice())?;
        let further = columns_appended(alloc, further, other.further.as_slice())?;
        Ok(SourceLists {
            ids,
            objects,
            further,
        })
    }
}
