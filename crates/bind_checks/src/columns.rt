//! The tables and columns of a query.
ghost use Rattle.std.specs.Prelude.{◌≡◌, ℕ};
ghost use Rattle.std.specs.Str.{bytes_eq};
ghost use Rattle.bind_rules.specs.Names.{Known};
ghost use Rattle.bind_rules.specs.Columns.{is_join, is_qualifier, is_same_column, qualifier, tables};
ghost use Rattle.sql_bound.specs.declared.expr.BoundCol.{BoundCol};
ghost use Rattle.sql_tree.specs.declared.name.Col.{Col};

use sql_bound::BoundCol;
use sql_tree::{Col, Query, TableRef};

/// What the names of a query refer to. The checks and the binder are written over it; the object table is one case. No
/// call allocates.
pub trait Columns {
    /// The columns, table names and qualifiers that the query may name.
    ghost known: { Self → Known };

    /// The largest size of a value of a column; of an unknown one it is any number.
    ghost size: { Self → Col → ℕ };

    /// The column that a written one refers to; for an unknown one it is any column.
    ghost means: { Self → Col → BoundCol };

    /// Returns whether the column is known.
    fn is_known(&self, col: &Col) -> bool
        ensures { result ≡ (known self.now).column col.now };

    /// Returns whether a table has the name.
    fn is_table(&self, name: &[u8]) -> bool
        ensures { result ≡ (known self.now).table name.now };

    /// Returns whether a table of the query has the qualifier.
    fn is_qualifier(&self, text: &[u8]) -> bool
        ensures { result ≡ (known self.now).qualifier text.now };

    /// Returns the largest size of a value of the column; of an unknown one, any number.
    fn size(&self, col: &Col) -> u128
        ensures { result ≡ size self.now col.now };

    /// Returns the column to which a written one refers.
    fn column(&self, col: &Col) -> BoundCol
        ensures { result ≡ means self.now col.now };
}

/// Returns the qualifier of a table's columns: its alias, or else its name.
pub fn qualifier(table: &TableRef) -> &[u8]
    ensures { result.now ≡ qualifier table.now }
{
    match &table.alias {
        Some(alias) => alias.text.as_slice(),
        None => table.name.text.as_slice(),
    }
}

/// Returns whether the query has a second table.
pub fn is_join(query: &Query) -> bool
    ensures { result ≡ is_join query.now }
{
    query.second.is_some()
}

// Returns whether the table has the qualifier.
fn has_qualifier(table: &TableRef, text: &[u8]) -> bool
    ensures { result ≡ bytes_eq text.now (qualifier table.now) }
{
    text == qualifier(table)
}

/// Returns whether one of the query's tables has the qualifier.
pub fn is_qualifier(query: &Query, text: &[u8]) -> bool
    ensures { result ≡ is_qualifier (tables query.now) text.now }
{
    if has_qualifier(&query.first, text) {
        return true;
    }
    match &query.second {
        Some(second) => has_qualifier(second, text),
        None => false,
    }
}

/// Returns whether both are the same column of a query over one table.
pub(crate) fn is_same_column(a: &Col, b: &Col) -> bool
    ensures { result ≡ is_same_column a.now b.now }
{
    a.name.text.as_slice() == b.name.text.as_slice()
}
