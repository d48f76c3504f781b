//! The fault of rows of which two have the same id, by their ids in the order of the text.
ghost use Rattle.std.specs.Prelude.{◌≤◌, length, IfNone, IfOk, IfSome};
ghost use Rattle.std.specs.List.{IsDistinct};
ghost use Rattle.std.specs.Ordering.{int_eq};
ghost use Rattle.sky_io.specs.Stops.{IfBad};
ghost use Rattle.table_rules.specs.Repeats.{IsFirstFault, IsRepeat};
ghost use Rattle.table_rules.specs.declared.limits.TheConstants.{ROWS_MOST};

use crate::repeats::first_repeat;
use sky_io::{Memory, Stop};
use sky_row::ids_ascend;
use std::alloc::Global;
use table_rules::LoadFault;

/// Returns the fault of the first id that an earlier one equals, or `None` if no two are equal. Allocates memory for the
/// ids with their row numbers, 16 bytes an id.
fn repeat_in(alloc: Global, ids: &[i64]) -> Result<Option<LoadFault>, Memory>
    requires few { length ids.now ≤ ROWS_MOST }
    ensures none { IfOk result (λ found. IfNone found (IsDistinct int_eq ids.now)) }
    ensures some { IfOk result (λ found. IfSome found (λ fault. IsRepeat ids.now fault)) }
{
    match first_repeat(alloc, ids)? {
        Some(place) => Ok(Some(LoadFault::Repeated {
            row: place + 1,
            id: ids[place as usize],
        })),
        None => Ok(None),
    }
}

/// Returns the fault of these ids, two of which are equal, or an allocation failure. Allocates memory for the ids with
/// their row numbers, 16 bytes an id.
pub fn repeat_among(alloc: Global, ids: &[i64]) -> Stop<LoadFault>
    requires few { length ids.now ≤ ROWS_MOST }
    requires twice { IsDistinct int_eq ids.now → ⊥ }
    ensures { IfBad result (λ fault. IsRepeat ids.now fault) }
{
    match repeat_in(alloc, ids) {
        Ok(found) => Stop::Bad(found.unwrap()),
        Err(_) => Stop::Memory,
    }
}

/// Returns the first fault of rows with these ids followed by a record with the fault `behind`, or an allocation failure.
/// Allocates memory for the ids with their row numbers, if the ids do not ascend already.
#[tactic(auto, using(crate::proofs::Ascending::ascending_are_distinct))]
pub fn first_fault(alloc: Global, ids: &[i64], behind: LoadFault) -> Stop<LoadFault>
    requires few { length ids.now ≤ ROWS_MOST }
    ensures { IfBad result (λ fault. IsFirstFault ids.now behind fault) }
{
    if ids_ascend(ids) {
        return Stop::Bad(behind);
    }
    match repeat_in(alloc, ids) {
        Ok(Some(repeat)) => Stop::Bad(repeat),
        Ok(None) => Stop::Bad(behind),
        Err(_) => Stop::Memory,
    }
}
