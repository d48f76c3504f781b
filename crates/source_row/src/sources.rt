//! The sources of a table, in strictly ascending id.
ghost use Rattle.std.specs.Prelude.{◌≡◌, ◌+◌, ◌<◌, ◌≤◌, length, map, get_or};
ghost use Rattle.table_rules.specs.declared.limits.TheConstants.{FURTHER_COLUMNS_MOST};
ghost use Rattle.sky_row.specs.Columns.{AreAscending};
ghost use Rattle.source_rules.specs.Sources.{IsSourceTable, source_cell};
ghost use Rattle.source_rules.specs.declared.limits.TheConstants.{SOURCE_FIRST_COLUMNS};
ghost use Rattle.source_row.specs.SourceColumns.{AreSourceColumns, no_source, source_column, sources_in};

use crate::lists::SourceLists;
use crate::schema::SourceSchema;
use sky_row::Column;
use source_rules::limits::SOURCE_FIRST_COLUMNS;
use std::marker::Model;

/// A source table: sources in strictly ascending id, each with a value or NULL for each extra column.
#[derive(Drop)]
pub struct Sources {
    schema: SourceSchema,
    lists: SourceLists,
}

impl Model for Sources {
    ghost use Rattle.source_rules.specs.Sources.{SourceTable};
    ghost use Rattle.sky_row.specs.Columns.{AreAscending};
    ghost use Rattle.source_row.specs.SourceColumns.{AreSourceColumns, sources_in};

    ghost Value = { SourceTable };

    ghost view = { λ s. record { names = s.schema; sources = sources_in s.lists } };

    ghost invariant = { λ s. AreSourceColumns s.schema s.lists × AreAscending s.lists.ids };
}

impl Sources {
    /// Creates the table of sources whose ids ascend already, as `ids_ascend` reports. Does not allocate.
    pub fn ascending(schema: SourceSchema, lists: SourceLists) -> Sources
        requires are { AreSourceColumns schema lists }
        requires ascend { AreAscending lists.ids }
        ensures { result ≡ record { names = schema; sources = sources_in lists } }
    {
        Sources { schema, lists }
    }

    /// Returns the number of sources. Does not allocate.
    pub fn len(&self) -> u32
        ensures count { result ≡ length self.now.sources }
        ensures limits { IsSourceTable self.now }
    {
        self.lists.len() as u32
    }

    /// Returns the names of the columns. Does not allocate.
    pub fn schema(&self) -> &SourceSchema
        ensures { result.now ≡ self.now.names }
    {
        &self.schema
    }

    /// Returns the columns themselves, without their names. Does not allocate.
    pub fn lists(&self) -> &SourceLists
        ensures are { AreSourceColumns self.now.names result.now }
        ensures sources { sources_in result.now ≡ self.now.sources }
    {
        &self.lists
    }

    /// Returns the ids, in ascending order. Does not allocate.
    pub fn ids(&self) -> &[i64]
        ensures value { result.now ≡ map (λ s. s.id) self.now.sources }
        ensures ascend { AreAscending result.now }
    {
        self.lists.ids()
    }

    /// Returns the ids of the objects of the sources. Does not allocate.
    pub fn objects(&self) -> &[i64]
        ensures { result.now ≡ map (λ s. s.object) self.now.sources }
    {
        self.lists.objects()
    }

    /// Returns an extra column by its number among all columns, so from `SOURCE_FIRST_COLUMNS`. Does not allocate.
    pub fn further(&self, col: u32) -> &Column
        requires first { SOURCE_FIRST_COLUMNS ≤ col }
        requires last { col < SOURCE_FIRST_COLUMNS + length self.now.names }
        ensures { result.now ≡ source_column self.now.sources col }
    {
        self.lists.further(col as usize - SOURCE_FIRST_COLUMNS)
    }
}
