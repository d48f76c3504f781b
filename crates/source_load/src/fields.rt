//! The ids of a record. Columns are counted from 0, and the fields of a fault from 1.
ghost use Rattle.std.specs.Prelude.{◌≡◌, ◌≤ℤ◌, [], pos, Some, IfErr, IfOk, OnOk};
ghost use Rattle.table_rules.specs.Records.{number_in};
ghost use Rattle.table_rules.specs.declared.limits.TheConstants.{ID_MOST};
ghost use Rattle.record_text.specs.Faults.{first_of};
ghost use Rattle.source_load.specs.SourceFields.{ids_faults};

use record_text::{Record, read_id};
use table_rules::LoadFault;

/// Returns the id of the source of a record, and that of its object.
#[tactic(auto, using(record_text::proofs::Firsts::first_front, record_text::proofs::Firsts::first_behind, record_text::proofs::Firsts::none_of_two))]
pub(crate) fn read_ids(row: u32, fields: &Record<'_>) -> Result<(i64, i64), LoadFault>
    ensures none { OnOk result (ids_faults row fields.now ≡ []) }
    ensures id { IfOk result (λ ids. ids.0 ≡ number_in fields.now 0) }
    ensures object { IfOk result (λ ids. ids.1 ≡ number_in fields.now 1) }
    ensures id_low { IfOk result (λ ids. pos 0 ≤ℤ ids.0) }
    ensures id_high { IfOk result (λ ids. ids.0 ≤ℤ pos ID_MOST) }
    ensures object_low { IfOk result (λ ids. pos 0 ≤ℤ ids.1) }
    ensures object_high { IfOk result (λ ids. ids.1 ≤ℤ pos ID_MOST) }
    ensures bad { IfErr result (λ fault.
        first_of (ids_faults row fields.now) ≡ Some fault) }
{
    let id = read_id(row, 0, fields)?;
    let object = read_id(row, 1, fields)?;
    Ok((id, object))
}
