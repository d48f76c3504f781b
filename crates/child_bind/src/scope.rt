//! What the names of a query over objects and their sources refer to.
ghost use Rattle.std.specs.Prelude.{◌≡◌, ◌<◌, option_to_list};
ghost use Rattle.std.specs.Option.{option_map};
ghost use Rattle.bind_rules.specs.Columns.{is_object_table, tables};
ghost use Rattle.child_bind_rules.specs.PairColumns.{column_by, is_source_table, may_be_of, pair_column};
ghost use Rattle.child_bind_rules.specs.PairColumns.{pair_columns, pair_names, pair_size, schemas_of, table_column};
ghost use Rattle.child_rules.specs.Columns.{object_col, source_col};
ghost use Rattle.source_rules.specs.SourceNames.{source_column_of};
ghost use Rattle.source_rules.specs.declared.limits.TheConstants.{SOURCE_COLUMNS_MOST};
ghost use Rattle.table_rules.specs.Names.{column_of};

use bind_checks::{Columns, is_qualifier, qualifier};
use sky_row::Schema;
use source_row::SourceSchema;
use sql_bound::BoundCol;
use sql_tree::{Col, Name, Query, TableRef};
use table_rules::limits::COLUMNS_MOST;

/// The columns of both tables, and the query whose names refer to them.
#[derive(Drop)]
pub(crate) struct ChildScope<'a> {
    pub(crate) objects: &'a Schema,
    pub(crate) sources: &'a SourceSchema,
    pub(crate) query: &'a Query,
}

/// Returns whether the name is that of the object table.
pub(crate) fn is_object_table(name: &[u8]) -> bool
    ensures { result ≡ is_object_table name.now }
{
    name == b"Object".as_slice()
}

/// Returns whether the name is that of the source table.
pub(crate) fn is_source_table(name: &[u8]) -> bool
    ensures { result ≡ is_source_table name.now }
{
    name == b"Source".as_slice()
}

// Returns the column of a pair that is the object's column with this number.
fn object_col(col: u32) -> BoundCol
    ensures { result ≡ object_col col }
{
    BoundCol { second: false, col }
}

// Returns the column of a pair that is the source's column with this number.
fn source_col(col: u32) -> BoundCol
    requires { col < SOURCE_COLUMNS_MOST }
    ensures { result ≡ source_col col }
{
    match col {
        0 => BoundCol {
            second: true,
            col: 0,
        },
        1 => object_col(0),
        _ => BoundCol {
            second: true,
            col: col + 2,
        },
    }
}

// Returns the object's column with this name.
fn object_column(schema: &Schema, name: &[u8]) -> Option<BoundCol>
    ensures { result ≡ option_map object_col (column_of schema.now name.now) }
{
    match schema.column(name) {
        Some(col) => Some(object_col(col)),
        None => None,
    }
}

// Returns the source's column with this name.
#[tactic(auto, using(crate::proofs::SourcePlaces::source_below))]
fn source_column(schema: &SourceSchema, name: &[u8]) -> Option<BoundCol>
    ensures { result ≡ option_map source_col (source_column_of schema.now name.now) }
{
    // A width tells that at most 12 columns are extra ones, so the number is below 14.
    let _width = schema.width();
    match schema.column(name) {
        Some(col) => Some(source_col(col)),
        None => None,
    }
}

// Returns whether a qualifier, if one is written, is the table's.
fn may_be_of(written: &Option<Name>, table: &TableRef) -> bool
    ensures { result ≡ may_be_of written.now table.now }
{
    match written {
        Some(name) => name.text.as_slice() == qualifier(table),
        None => true,
    }
}

impl<'a> ChildScope<'a> {
    // Returns the column of the table with this name.
    fn table_column(&self, table: &[u8], name: &[u8]) -> Option<BoundCol>
        ensures { result
            ≡ table_column (schemas_of self.now.objects.now self.now.sources.now) table.now name.now }
    {
        if is_object_table(table) {
            return object_column(self.objects, name);
        }
        if is_source_table(table) {
            return source_column(self.sources, name);
        }
        None
    }

    // Returns the column of this table that a written column refers to.
    fn column_by(&self, col: &Col, table: &TableRef) -> Option<BoundCol>
        ensures { result
            ≡ column_by (schemas_of self.now.objects.now self.now.sources.now) col.now table.now }
    {
        if may_be_of(&col.table, table) {
            self.table_column(table.name.text.as_slice(), col.name.text.as_slice())
        } else {
            None
        }
    }

    // Returns the column of the second table, if there is one, that a written column refers to.
    fn column_of_second(&self, col: &Col) -> Option<BoundCol>
        ensures { result ≡ pair_column (schemas_of self.now.objects.now self.now.sources.now)
            (option_to_list self.now.query.now.second) col.now }
    {
        match &self.query.second {
            Some(table) => self.column_by(col, table),
            None => None,
        }
    }

    // Returns the column that a written column refers to.
    fn find(&self, col: &Col) -> Option<BoundCol>
        ensures { result ≡ pair_column (schemas_of self.now.objects.now self.now.sources.now)
            (tables self.now.query.now) col.now }
    {
        match self.column_by(col, &self.query.first) {
            Some(found) => Some(found),
            None => self.column_of_second(col),
        }
    }
}

impl<'a> Columns for ChildScope<'a> {
    ghost known = { λ s. pair_names (schemas_of s.objects.now s.sources.now) s.query.now };

    ghost size = { λ s. pair_size (schemas_of s.objects.now s.sources.now) s.query.now };

    ghost means = { λ s. pair_columns (schemas_of s.objects.now s.sources.now) s.query.now };

    fn is_known(&self, col: &Col) -> bool {
        self.find(col).is_some()
    }

    fn is_table(&self, name: &[u8]) -> bool {
        is_object_table(name) || is_source_table(name)
    }

    fn is_qualifier(&self, text: &[u8]) -> bool {
        is_qualifier(self.query, text)
    }

    // The columns of a pair have the bounds of a row's, and those of a source are as in its own table.
    fn size(&self, col: &Col) -> u128 {
        match self.find(col) {
            Some(found) => self.objects.bound(found.col).unsigned_abs(),
            None => 0,
        }
    }

    fn column(&self, col: &Col) -> BoundCol {
        match self.find(col) {
            Some(found) => found,
            None => object_col(COLUMNS_MOST as u32),
        }
    }
}
