//! The rows of a catalogue that are read so far.
ghost use Rattle.std.specs.Prelude.{◌≡◌, IfErr, IfOk, refl};
ghost use Rattle.sky_io.specs.Stops.{IfBad};
ghost use Rattle.table_rules.specs.Objects.{IsTable, Obj};
ghost use Rattle.table_rules.specs.Records.{catalogue_with, object_form};
ghost use Rattle.table_rules.specs.Repeats.{IsRepeat};
ghost use Rattle.catalogue_load.specs.Parts.{ids_in, length_numberless};

use crate::order::in_order;
use crate::row::read_row;
use id_order::first_fault;
use record_text::Record;
use sky_io::{Memory, Stop};
use sky_row::{BadName, Columns, Rows, Schema};
use std::alloc::Global;
use std::marker::Model;
use std::thread::Threads;
use table_load::Gathering;
use table_rules::LoadFault;

/// The columns of a catalogue and its rows so far, in the order of the text.
#[derive(Drop)]
pub(crate) struct Gathered {
    columns: Columns,
    /// The buffer into which the extra values of a record are read, before they are copied into its row.
    cells: Vec<Option<i64>>,
}

impl Model for Gathered {
    ghost use Rattle.table_rules.specs.Objects.{Catalogue};

    ghost Value = { Catalogue };

    ghost view = { λ g. g.columns };
}

impl Gathered {
    /// Returns the rows in ascending id, put in order by the given number of threads, or the first fault of an id that an
    /// earlier row has.
    pub(crate) fn into_rows<R: Threads + Sync>(
        self,
        rt: &R,
        alloc: Global,
        threads: u32,
    ) -> Result<Rows, Stop<LoadFault>>
        ensures names { IfOk result (λ all. all.names ≡ self.names) }
        ensures table { IfOk result (λ all. IsTable self.objects all.objects) }
        ensures bad { IfErr result (λ stop. IfBad stop (λ fault.
            IsRepeat (ids_in self.objects) fault)) }
    {
        let Gathered { columns, cells: _ } = self;
        in_order(rt, alloc, threads, columns)
    }
}

impl Gathering for Gathered {
    type Schema = Schema;

    type Table = Rows;

    ghost Row = { Obj };

    ghost form = { object_form };

    ghost names_in = { λ schema. schema };

    ghost names = { λ c. c.names };

    ghost rows = { λ c. c.objects };

    ghost is_whole = { λ c. Unit {0} };

    ghost made = { catalogue_with };

    ghost names_of = { λ c. c.names };

    ghost rows_of = { λ c. c.objects };

    ghost named = { refl };

    ghost numberless = { length_numberless };

    ghost both = { λ t. refl };

    /// Creates the columns objectId, x, y and z alone. Does not allocate.
    fn first_columns(alloc: Global) -> Schema {
        Schema::new(alloc)
    }

    /// Returns the number of columns. Does not allocate.
    fn width(schema: &Schema) -> u32 {
        schema.width()
    }

    /// Returns the name of the column, which is counted from 0. Does not allocate.
    fn name(schema: &Schema, col: u32) -> &[u8] {
        schema.name(col)
    }

    /// Appends an extra column. Allocates memory for its name.
    fn push_column(schema: &mut Schema, name: &[u8]) -> Result<(), Stop<BadName>> {
        schema.push(name)
    }

    /// Creates these columns, without rows.
    fn without_rows(alloc: Global, schema: Schema) -> Result<Gathered, Memory> {
        let columns = Columns::new(alloc, schema)?;
        Ok(Gathered {
            columns,
            cells: Vec::new(alloc),
        })
    }

    /// Returns the columns. Does not allocate.
    fn schema(&self) -> &Schema {
        self.columns.schema()
    }

    /// Returns the number of rows so far. Does not allocate.
    fn count(&self) -> usize {
        self.columns.len() as usize
    }

    /// Appends the row that a record spells. After an error nothing has changed.
    fn push(&mut self, row: u32, fields: &Record<'_>) -> Result<(), Stop<LoadFault>> {
        let made = read_row(&mut self.cells, row, fields)?;
        self.columns.push(&made)?;
        Ok(())
    }

    /// Returns the rows with those of another part of the text after them. Allocates memory. If an allocation fails, the rows
    /// are dropped.
    fn followed_by(self, alloc: Global, other: &Gathered) -> Result<Gathered, Memory> {
        let Gathered { columns, cells } = self;
        let columns = columns.followed_by(alloc, &other.columns)?;
        Ok(Gathered { columns, cells })
    }

    /// Returns the first fault of the rows and of the record after them, or an allocation failure. The record has the fault
    /// `behind`.
    fn first_fault(&self, alloc: Global, behind: LoadFault) -> Stop<LoadFault> {
        let _count = self.columns.len();
        first_fault(alloc, self.columns.ids(), behind)
    }
}
