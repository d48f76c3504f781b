//! What the names of a query over the object table refer to.
ghost use Rattle.std.specs.Prelude.{◌≡◌};
ghost use Rattle.std.specs.Str.{bytes_eq};
ghost use Rattle.table_rules.specs.Names.{column_of};
ghost use Rattle.bind_rules.specs.Bounds.{column_number, is_second, object_columns};
ghost use Rattle.bind_rules.specs.Columns.{is_qualified_well, qualifier, tables};
ghost use Rattle.bind_rules.specs.IdTests.{first_id};
ghost use Rattle.bind_rules.specs.Names.{known_names};
ghost use Rattle.bind_rules.specs.Widths.{bound_by, column_size};

use bind_checks::{ColumnTest, Columns, is_qualifier, qualifier};
use sky_row::Schema;
use sql_bound::BoundCol;
use sql_tree::{Col, Name, Query, TableRef};

/// The columns of a schema, and the query whose names refer to them.
#[derive(Drop)]
pub(crate) struct Scope<'a> {
    pub(crate) schema: &'a Schema,
    pub(crate) query: &'a Query,
}

// Returns whether the name is the qualifier of the table.
fn is_qualified_by(name: &Name, table: &TableRef) -> bool
    ensures { result ≡ bytes_eq name.now.text (qualifier table.now) }
{
    name.text.as_slice() == qualifier(table)
}

// Returns whether the qualifier is that of the second table.
fn is_second(second: &Option<TableRef>, name: &Option<Name>) -> bool
    ensures { result ≡ is_second second.now name.now }
{
    match (second, name) {
        (Some(table), Some(name)) => is_qualified_by(name, table),
        _ => false,
    }
}

// Returns the number of the column with the name, or the number past the last column if no column has it.
fn column_number(schema: &Schema, name: &[u8]) -> u32
    ensures { result ≡ column_number schema.now name.now }
{
    schema.column(name).unwrap_or(schema.width())
}

// Returns whether a qualifier, if one is written, is that of one of the query's tables.
fn is_qualified_well(query: &Query, table: &Option<Name>) -> bool
    ensures { result ≡ is_qualified_well (tables query.now) table.now }
{
    match table {
        Some(name) => is_qualifier(query, name.text.as_slice()),
        None => true,
    }
}

// Returns the largest size of a value in the column, and 0 if there is no column of that name.
fn bound_of(schema: &Schema, name: &[u8]) -> u128
    ensures { result ≡ bound_by (column_of schema.now name.now) }
{
    match schema.column(name) {
        Some(col) => schema.bound(col).unsigned_abs(),
        None => 0,
    }
}

impl<'a> Columns for Scope<'a> {
    ghost known = { λ s. known_names s.schema.now s.query.now };

    ghost size = { λ s. column_size s.schema.now };

    ghost means = { λ s. object_columns s.schema.now s.query.now };

    fn is_known(&self, col: &Col) -> bool {
        is_qualified_well(self.query, &col.table)
            && self.schema.column(col.name.text.as_slice()).is_some()
    }

    fn is_table(&self, name: &[u8]) -> bool {
        name == b"Object".as_slice()
    }

    fn is_qualifier(&self, text: &[u8]) -> bool {
        is_qualifier(self.query, text)
    }

    fn size(&self, col: &Col) -> u128 {
        bound_of(self.schema, col.name.text.as_slice())
    }

    // A name that the schema does not have gets the number past the last column.
    fn column(&self, col: &Col) -> BoundCol {
        BoundCol {
            second: is_second(&self.query.second, &col.table),
            col: column_number(self.schema, col.name.text.as_slice()),
        }
    }
}

/// The test of a column that it is the id of the first table.
#[derive(Drop)]
pub(crate) struct FirstId<'a> {
    pub(crate) scope: &'a Scope<'a>,
}

impl<'a> ColumnTest for FirstId<'a> {
    ghost passes = { λ t.
        first_id (object_columns t.scope.now.schema.now t.scope.now.query.now) };

    fn passes(&self, col: &Col) -> bool {
        let bound = self.scope.column(col);
        !bound.second && bound.col == 0
    }
}
