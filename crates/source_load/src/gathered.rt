//! The sources that are read so far.
ghost use Rattle.std.specs.Prelude.{◌≡◌, IfErr, IfOk, refl};
ghost use Rattle.sky_io.specs.Stops.{IfBad};
ghost use Rattle.table_rules.specs.IdOrder.{IsInOrder};
ghost use Rattle.table_rules.specs.Repeats.{IsRepeat};
ghost use Rattle.source_rules.specs.SourceRecords.{id_of_source, source_form, with_sources};
ghost use Rattle.source_rules.specs.Sources.{Source};
ghost use Rattle.source_row.specs.SourceColumns.{AreSourceColumns, sources_in};

use crate::order::in_order;
use crate::row::read_source;
use id_order::first_fault;
use record_text::Record;
use sky_io::{Memory, Stop};
use sky_row::BadName;
use source_row::{SourceLists, SourceSchema, Sources};
use source_rules::limits::SOURCE_FIRST_COLUMNS;
use std::alloc::Global;
use std::marker::Model;
use table_load::Gathering;
use table_rules::LoadFault;

/// The columns of a source table and its sources so far, in the order of the text.
#[derive(Drop)]
pub(crate) struct Gathered {
    schema: SourceSchema,
    lists: SourceLists,
    /// The buffer into which the extra values of a record are read, before they are copied into their columns.
    cells: Vec<Option<i64>>,
}

impl Model for Gathered {
    ghost use Rattle.source_load.specs.GatheredSources.{GatheredSources};

    ghost Value = { GatheredSources };

    ghost view = { λ g. record { names = g.schema; parts = g.lists } };
}

impl Gathering for Gathered {
    type Schema = SourceSchema;

    type Table = Sources;

    ghost Row = { Source };

    ghost form = { source_form };

    ghost names_in = { λ schema. schema };

    ghost names = { λ g. g.names };

    ghost rows = { λ g. sources_in g.parts };

    ghost is_whole = { λ g. AreSourceColumns g.names g.parts };

    ghost made = { with_sources };

    ghost names_of = { λ t. t.names };

    ghost rows_of = { λ t. t.sources };

    ghost named = { refl };

    ghost numberless = { λ row other fields none. refl };

    ghost both = { λ t. refl };

    /// Creates the columns sourceId and objectId alone. Does not allocate.
    fn first_columns(alloc: Global) -> SourceSchema {
        SourceSchema::new(alloc)
    }

    /// Returns the number of columns. Does not allocate.
    fn width(schema: &SourceSchema) -> u32 {
        schema.width()
    }

    /// Returns the name of the column, which is counted from 0. Does not allocate.
    fn name(schema: &SourceSchema, col: u32) -> &[u8] {
        schema.name(col)
    }

    /// Appends an extra column. Allocates memory for its name.
    fn push_column(schema: &mut SourceSchema, name: &[u8]) -> Result<(), Stop<BadName>> {
        schema.push(name)
    }

    /// Creates these columns, without sources.
    #[tactic(auto, using(source_row::proofs::Sourced::no_columns))]
    fn without_rows(alloc: Global, schema: SourceSchema) -> Result<Gathered, Memory> {
        let lists = SourceLists::new(alloc, schema.width() - SOURCE_FIRST_COLUMNS as u32)?;
        Ok(Gathered {
            schema,
            lists,
            cells: Vec::new(alloc),
        })
    }

    /// Returns the columns. Does not allocate.
    fn schema(&self) -> &SourceSchema {
        &self.schema
    }

    /// Returns the number of sources so far. Does not allocate.
    #[tactic(auto, using(source_row::proofs::Sourced::sources_count))]
    fn count(&self) -> usize {
        self.lists.len()
    }

    /// Appends the source that a record spells. If an allocation fails, some of the columns have its value and some do not.
    fn push(&mut self, row: u32, fields: &Record<'_>) -> Result<(), Stop<LoadFault>> {
        let (id, object) = read_source(&mut self.cells, row, fields)?;
        self.lists.push(id, object, self.cells.as_slice())?;
        Ok(())
    }

    /// Returns the sources with those of another part of the text after them. Allocates memory. If an allocation fails, the
    /// sources are dropped.
    fn followed_by(self, alloc: Global, other: &Gathered) -> Result<Gathered, Memory> {
        let Gathered {
            schema,
            lists,
            cells,
        } = self;
        let lists = lists.followed_by(alloc, &other.lists)?;
        Ok(Gathered {
            schema,
            lists,
            cells,
        })
    }

    /// Returns the first fault of the sources and of the record after them, which has the fault `behind`; or an
    /// allocation failure.
    fn first_fault(&self, alloc: Global, behind: LoadFault) -> Stop<LoadFault> {
        first_fault(alloc, self.lists.ids(), behind)
    }
}

impl Gathered {
    /// Returns the sources in ascending id, or the first fault of an id that an earlier one has.
    pub(crate) fn into_sources(self, alloc: Global) -> Result<Sources, Stop<LoadFault>>
        requires { AreSourceColumns self.names self.parts }
        ensures names { IfOk result (λ all. all.names ≡ self.names) }
        ensures table { IfOk result (λ all.
            IsInOrder id_of_source (sources_in self.parts) all.sources) }
        ensures bad { IfErr result (λ stop. IfBad stop (λ fault. IsRepeat self.parts.ids fault)) }
    {
        let Gathered {
            schema,
            lists,
            cells: _,
        } = self;
        in_order(alloc, schema, lists)
    }
}
