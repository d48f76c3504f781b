//! What the reading of a table needs of its form: the columns, and the rows that are read so far.
ghost use Rattle.std.specs.Prelude.{◌≡◌, ◌+◌, ◌≤◌, ◌<◌, ℕ, List, [], ◌∷◌, ◌++◌, length, map, slice_get, true, false, Some, IfErr, IfOk, OnOk};
ghost use Rattle.std.specs.List.{list_all};
ghost use Rattle.sky_io.specs.Stops.{IfBad};
ghost use Rattle.table_rules.specs.Forms.{Form, may_follow};
ghost use Rattle.table_rules.specs.Records.{faults_by_itself};
ghost use Rattle.table_rules.specs.Repeats.{IsFirstFault};
ghost use Rattle.table_rules.specs.declared.limits.TheConstants.{COLUMNS_MOST, FURTHER_COLUMNS_MOST, ROWS_MOST};
ghost use Rattle.record_text.specs.Faults.{first_of};
ghost use Rattle.table_load.specs.InParts.{AreFaultsWithoutNumber};
ghost use Rattle.table_load.specs.Names.{is_filled};

use record_text::Record;
use sky_io::{Memory, Stop};
use sky_row::BadName;
use std::alloc::Global;
use table_rules::LoadFault;

/// The columns of a table of one form and its rows so far, in the order of the text.
pub trait Gathering: Drop {
    /// The columns: those of every table of the form, then the extra ones by name.
    type Schema: Drop;

    /// The rows in ascending id.
    type Table;

    /// What a row is.
    ghost Row: { Type 0 };

    /// The form of the table.
    ghost form: { Form Row };

    /// The names of the extra columns.
    ghost names_in: { Self.Schema → List (List ℕ) };

    /// The names of the extra columns of the rows.
    ghost names: { Self → List (List ℕ) };

    /// The rows so far.
    ghost rows: { Self → List Row };

    /// Each column has a value for each row. After an allocation failure this may no longer hold.
    ghost is_whole: { Self → Type 0 };

    /// The table of these extra columns and these rows.
    ghost made: { List (List ℕ) → List Row → Self.Table };

    /// The names of the extra columns of a table.
    ghost names_of: { Self.Table → List (List ℕ) };

    /// The rows of a table.
    ghost rows_of: { Self.Table → List Row };

    /// Creates the columns of every table of the form, without extra ones. Does not allocate.
    fn first_columns(alloc: Global) -> Self::Schema
        ensures { names_in result ≡ [] };

    /// Returns the number of columns, at most `COLUMNS_MOST`. Does not allocate.
    fn width(schema: &Self::Schema) -> u32
        ensures count { result ≡ length form.first + length (names_in schema.now) }
        ensures few { length (names_in schema.now) ≤ FURTHER_COLUMNS_MOST }
        ensures most { result ≤ COLUMNS_MOST };

    /// Returns the name of the column, which is counted from 0. Does not allocate.
    fn name(schema: &Self::Schema, col: u32) -> &[u8]
        requires { col < length form.first + length (names_in schema.now) }
        ensures { slice_get (form.first ++ names_in schema.now) col ≡ Some result.now };

    /// Appends an extra column. Allocates memory for its name.
    fn push_column(schema: &mut Self::Schema, name: &[u8]) -> Result<(), Stop<BadName>>
        ensures ok { OnOk result (names_in schema.new ≡ names_in schema.old ++ name.now ∷ []) }
        ensures fits { OnOk result (
            may_follow form (form.first ++ names_in schema.old) name.now ≡ true) }
        ensures bad { IfErr result (λ stop. IfBad stop (λ _.
            may_follow form (form.first ++ names_in schema.old) name.now ≡ false)) };

    /// Creates these columns without rows. Allocates memory for the list of them.
    fn without_rows(alloc: Global, schema: Self::Schema) -> Result<Self, Memory>
        ensures names { IfOk result (λ made. names made ≡ names_in schema) }
        ensures none { IfOk result (λ made. rows made ≡ []) }
        ensures whole { IfOk result is_whole };

    /// Returns the columns. Does not allocate.
    fn schema(&self) -> &Self::Schema
        ensures { names_in result.now ≡ names self.now };

    /// Returns the number of rows so far. Does not allocate.
    fn count(&self) -> usize
        ensures { result ≡ length (rows self.now) };

    /// Appends the row that a record with a field for each column spells, if the record has no fault by itself. `row` is
    /// its number, from 1. Allocates memory. After a fault nothing has changed.
    fn push(&mut self, row: u32, fields: &Record<'_>) -> Result<(), Stop<LoadFault>>
        requires whole { is_whole self.old }
        requires room { length (rows self.old) < ROWS_MOST }
        requires few { length (names self.old) ≤ FURTHER_COLUMNS_MOST }
        requires all { length fields.now ≡ length form.first + length (names self.old) }
        ensures names { names self.new ≡ names self.old }
        ensures none { OnOk result (
            faults_by_itself form (length fields.now) row fields.now ≡ []) }
        ensures ok { OnOk result (
            rows self.new ≡ rows self.old ++ form.row fields.now ∷ []) }
        ensures whole { OnOk result (is_whole self.new) }
        ensures same { IfErr result (λ stop. IfBad stop (λ _. rows self.new ≡ rows self.old)) }
        ensures still { IfErr result (λ stop. IfBad stop (λ _. is_whole self.new)) }
        ensures bad { IfErr result (λ stop. IfBad stop (λ fault. first_of
            (faults_by_itself form (length fields.now) row fields.now) ≡ Some fault)) };

    /// Returns the rows with those of another part of the text after them. Allocates memory. If an allocation fails, the rows
    /// are dropped.
    fn followed_by(self, alloc: Global, other: &Self) -> Result<Self, Memory>
        requires whole { is_whole self }
        requires other { is_whole other.now }
        requires wide { names other.now ≡ names self }
        requires few { length (rows self) + length (rows other.now) ≤ ROWS_MOST }
        ensures names { IfOk result (λ both. names both ≡ names self) }
        ensures rows { IfOk result (λ both. rows both ≡ rows self ++ rows other.now) }
        ensures whole { IfOk result is_whole };

    /// Returns the first fault of the rows and of the record after them, which has the fault `behind`; or an allocation
    /// failure.
    fn first_fault(&self, alloc: Global, behind: LoadFault) -> Stop<LoadFault>
        requires { is_whole self.now }
        ensures { IfBad result (λ fault. IsFirstFault (map form.id (rows self.now)) behind fault) };

    /// Each column of every table of the form has a name that is not empty.
    ghost named: { list_all is_filled form.first ≡ true };

    /// Whether a record as a whole has a fault does not depend on the number of its row.
    ghost numberless: { AreFaultsWithoutNumber form };

    /// A table is its names and its rows.
    ghost both: { (t : Self.Table) → made (names_of t) (rows_of t) ≡ t };
}
