//! A source from a record.
//!
//! The extra values of a record are read into a list that the caller reuses for the next one, and the ids are returned.
//! What the list held before has no meaning.
ghost use Rattle.std.specs.Prelude.{◌≡◌, ◌+◌, ◌≤◌, ◌≤ℤ◌, [], length, pos, Some, IfErr, IfOk, OnOk};
ghost use Rattle.sky_io.specs.Stops.{IfBad};
ghost use Rattle.table_rules.specs.Records.{faults_by_itself, number_in};
ghost use Rattle.record_text.specs.Faults.{faults_from, first_of};
ghost use Rattle.source_rules.specs.Sources.{IsSource};
ghost use Rattle.source_rules.specs.SourceRecords.{source_form, source_of};
ghost use Rattle.table_rules.specs.declared.limits.TheConstants.{ID_MOST};
ghost use Rattle.source_rules.specs.declared.limits.TheConstants.{SOURCE_COLUMNS_MOST, SOURCE_FIRST_COLUMNS};

use crate::fields::read_ids;
use record_text::{Record, read_cells};
use sky_io::Stop;
use source_rules::limits::SOURCE_FIRST_COLUMNS;
use table_rules::LoadFault;

/// Returns the ids of a record with this number, which has as many fields as the header, and reads its extra values into
/// `cells`.
#[tactic(auto, using(crate::proofs::SourceFirsts::own_none, crate::proofs::SourceFirsts::own_ids, crate::proofs::SourceFirsts::own_behind))]
pub(crate) fn read_source(
    cells: &mut Vec<Option<i64>>,
    row: u32,
    fields: &Record<'_>,
) -> Result<(i64, i64), Stop<LoadFault>>
    requires two { SOURCE_FIRST_COLUMNS ≤ length fields.now }
    requires few { length fields.now ≤ SOURCE_COLUMNS_MOST }
    ensures none { OnOk result (
        faults_by_itself source_form (length fields.now) row fields.now ≡ []) }
    ensures ok { IfOk result (λ ids. source_of fields.now
        ≡ record { id = ids.0; object = ids.1; further = cells.new.items }) }
    ensures limits { OnOk result (IsSource (source_of fields.now)) }
    ensures wide { OnOk result (
        SOURCE_FIRST_COLUMNS + length cells.new.items ≡ length fields.now) }
    ensures bad { IfErr result (λ stop. IfBad stop (λ fault. first_of
        (faults_by_itself source_form (length fields.now) row fields.now) ≡ Some fault)) }
{
    match read_ids(row, fields) {
        Ok((id, object)) => with_cells(cells, row, id, object, fields),
        Err(fault) => Err(Stop::Bad(fault)),
    }
}

/// Returns these ids of a record, and reads its extra values into `cells`.
#[tactic(auto, using(crate::proofs::SourceFirsts::within_limits))]
fn with_cells(
    cells: &mut Vec<Option<i64>>,
    row: u32,
    id: i64,
    object: i64,
    fields: &Record<'_>,
) -> Result<(i64, i64), Stop<LoadFault>>
    requires two { SOURCE_FIRST_COLUMNS ≤ length fields.now }
    requires few { length fields.now ≤ SOURCE_COLUMNS_MOST }
    requires id { id ≡ number_in fields.now 0 }
    requires object { object ≡ number_in fields.now 1 }
    requires id_low { pos 0 ≤ℤ id }
    requires id_high { id ≤ℤ pos ID_MOST }
    requires object_low { pos 0 ≤ℤ object }
    requires object_high { object ≤ℤ pos ID_MOST }
    ensures cells { OnOk result (faults_from row SOURCE_FIRST_COLUMNS fields.now ≡ []) }
    ensures ok { IfOk result (λ ids. source_of fields.now
        ≡ record { id = ids.0; object = ids.1; further = cells.new.items }) }
    ensures limits { OnOk result (IsSource (source_of fields.now)) }
    ensures wide { OnOk result (
        SOURCE_FIRST_COLUMNS + length cells.new.items ≡ length fields.now) }
    ensures bad { IfErr result (λ stop. IfBad stop (λ fault. first_of
        (faults_from row SOURCE_FIRST_COLUMNS fields.now) ≡ Some fault)) }
{
    read_cells(cells, row, SOURCE_FIRST_COLUMNS, fields)?;
    Ok((id, object))
}
