//! The values in the fields of a record that tables of all forms share: ids and extra values. Columns are counted from 0,
//! and the fields of a fault from 1.
ghost use Rattle.std.specs.Prelude.{◌≡◌, ◌+◌, ◌≤◌, ◌<◌, ◌≤ℤ◌, [], ◌++◌, drop, length, map, pos, true};
ghost use Rattle.std.specs.Prelude.{Some, IfErr, IfOk, OnOk};
ghost use Rattle.std.specs.List.{list_all};
ghost use Rattle.sky_io.specs.Stops.{IfBad};
ghost use Rattle.text_rules.specs.Numbers.{int_of};
ghost use Rattle.text_rules.specs.Readings.{judged};
ghost use Rattle.table_rules.specs.Objects.{is_further};
ghost use Rattle.table_rules.specs.Records.{faults_between, field_in, is_between, number_in, unless};
ghost use Rattle.table_rules.specs.declared.fault.LoadFault.TheVariants.{Range};
ghost use Rattle.table_rules.specs.declared.limits.TheConstants.{COLUMNS_MOST, ID_MOST};
ghost use Rattle.record_text.specs.Faults.{cell_faults, faults_from, first_of, id_faults};

use crate::number::read_short;
use crate::record::Record;
use sky_io::Stop;
use sky_text::read_int;
use table_rules::LoadFault;
use table_rules::limits::FURTHER_MOST;

/// The largest size of an extra value, signed as it is compared.
const FURTHER: i64 = FURTHER_MOST as i64;

/// Returns the field of a column, or an empty one if the record ends before it. Does not allocate.
#[tactic(auto, using(crate::proofs::FieldAt::field_there, crate::proofs::FieldAt::field_missing))]
pub fn field_in<'a>(fields: &'a Record<'_>, col: usize) -> &'a [u8]
    ensures { result.now ≡ field_in fields.now col }
{
    match fields.get(col) {
        Some(text) => text,
        None => b"",
    }
}

/// Returns the number, if it is in the range.
fn within(row: u32, col: u32, least: i64, most: i64, value: i128) -> Result<i64, LoadFault>
    requires { col < COLUMNS_MOST }
    ensures value { result
        ≡ judged (unless (is_between least most value) (Range row (col + 1) value)) value }
    ensures range { IfOk result (λ z. is_between least most z ≡ true) }
{
    if i128::from(least) <= value && value <= i128::from(most) {
        Ok(value as i64)
    } else {
        Err(LoadFault::Range {
            row,
            field: col + 1,
            value,
        })
    }
}

/// Returns the number that the text spells, of whatever size, if it spells one in the range.
#[cold]
#[inline(never)]
fn long_within(row: u32, col: u32, least: i64, most: i64, text: &[u8]) -> Result<i64, LoadFault>
    requires { col < COLUMNS_MOST }
    ensures none { OnOk result (faults_between least most row col (int_of text.now) ≡ []) }
    ensures ok { IfOk result (λ z. int_of text.now ≡ Some z) }
    ensures range { IfOk result (λ z. is_between least most z ≡ true) }
    ensures bad { IfErr result (λ fault.
        first_of (faults_between least most row col (int_of text.now)) ≡ Some fault) }
{
    match read_int(text) {
        Some(value) => within(row, col, least, most, value),
        None => Err(LoadFault::Number {
            row,
            field: col + 1,
        }),
    }
}

/// Returns the number that the text spells, if it spells one in the range, whose ends are included. Does not allocate.
pub fn number_within(
    row: u32,
    col: u32,
    least: i64,
    most: i64,
    text: &[u8],
) -> Result<i64, LoadFault>
    requires { col < COLUMNS_MOST }
    ensures none { OnOk result (faults_between least most row col (int_of text.now) ≡ []) }
    ensures ok { IfOk result (λ z. int_of text.now ≡ Some z) }
    ensures range { IfOk result (λ z. is_between least most z ≡ true) }
    ensures bad { IfErr result (λ fault.
        first_of (faults_between least most row col (int_of text.now)) ≡ Some fault) }
{
    match read_short(text) {
        Some(value) => within(row, col, least, most, i128::from(value)),
        None => long_within(row, col, least, most, text),
    }
}

/// Returns the id in a column of a record. Does not allocate.
pub fn read_id(row: u32, col: u32, fields: &Record<'_>) -> Result<i64, LoadFault>
    requires { col < COLUMNS_MOST }
    ensures none { OnOk result (id_faults row col fields.now ≡ []) }
    ensures ok { IfOk result (λ id. id ≡ number_in fields.now col) }
    ensures bad { IfErr result (λ fault.
        first_of (id_faults row col fields.now) ≡ Some fault) }
    ensures low { IfOk result (λ id. pos 0 ≤ℤ id) }
    ensures high { IfOk result (λ id. id ≤ℤ pos ID_MOST) }
{
    number_within(row, col, 0, i64::MAX, field_in(fields, col as usize))
}

/// Returns an extra value, and `None` for an empty field.
fn read_cell(row: u32, col: u32, text: &[u8]) -> Result<Option<i64>, LoadFault>
    requires { col < COLUMNS_MOST }
    ensures none { OnOk result (cell_faults row col text.now ≡ []) }
    ensures ok { IfOk result (λ cell. cell ≡ int_of text.now) }
    ensures range { IfOk result (λ cell. is_further cell ≡ true) }
    ensures bad { IfErr result (λ fault.
        first_of (cell_faults row col text.now) ≡ Some fault) }
{
    if text.is_empty() {
        return Ok(None);
    }
    Ok(Some(number_within(row, col, -FURTHER, FURTHER, text)?))
}

/// Appends the extra value of a field.
#[tactic(auto, using(crate::proofs::Firsts::cell_kept, crate::proofs::Firsts::cell_refused, crate::proofs::Firsts::said_more, crate::proofs::Firsts::range_more))]
fn put_cell(
    cells: &mut Vec<Option<i64>>,
    row: u32,
    col: u32,
    fields: &Record<'_>,
) -> Result<(), Stop<LoadFault>>
    requires last { col < COLUMNS_MOST }
    requires there { col < length fields.now }
    ensures rest { OnOk result (faults_from row (col + 1) fields.now
        ≡ faults_from row col fields.now) }
    ensures said { OnOk result (
        cells.new.items ++ map int_of (drop (col + 1) fields.now)
        ≡ cells.old.items ++ map int_of (drop col fields.now)) }
    ensures range { OnOk result (list_all is_further cells.old.items ≡ true
        → list_all is_further cells.new.items ≡ true) }
    ensures bad { IfErr result (λ stop. IfBad stop (λ fault.
        first_of (faults_from row col fields.now) ≡ Some fault)) }
{
    match read_cell(row, col, field_in(fields, col as usize)) {
        Err(fault) => Err(Stop::Bad(fault)),
        Ok(cell) => Ok(cells.push(cell)?),
    }
}

/// Reads the extra values of a record, which are those from column `first` on, into `cells`, in place of its content.
/// Allocates memory if `cells` has no room for them. After an error it holds some of them.
pub fn read_cells(
    cells: &mut Vec<Option<i64>>,
    row: u32,
    first: usize,
    fields: &Record<'_>,
) -> Result<(), Stop<LoadFault>>
    requires there { first ≤ length fields.now }
    requires few { length fields.now ≤ COLUMNS_MOST }
    ensures none { OnOk result (faults_from row first fields.now ≡ []) }
    ensures ok { OnOk result (cells.new.items ≡ map int_of (drop first fields.now)) }
    ensures range { OnOk result (list_all is_further cells.new.items ≡ true) }
    ensures bad { IfErr result (λ stop. IfBad stop (λ fault.
        first_of (faults_from row first fields.now) ≡ Some fault)) }
{
    cells.clear();
    for col in first..fields.len() {
        put_cell(cells, row, col as u32, fields)?;
    }
    Ok(())
}
