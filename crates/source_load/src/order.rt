//! Sources in ascending id, or the first of them whose id an earlier one has.
//!
//! No source is searched for among the others: their row numbers are put in the order of the ids once. If that finds two
//! sources of one id, the ids in the order of the text are sorted too, with their row numbers.
ghost use Rattle.std.specs.Prelude.{◌≡◌, ◌≤◌, ◌≤ℤ◌, All, length, pos, IfErr, IfOk};
ghost use Rattle.sky_io.specs.Stops.{IfBad};
ghost use Rattle.table_rules.specs.IdOrder.{IsInOrder};
ghost use Rattle.table_rules.specs.Repeats.{IsRepeat};
ghost use Rattle.sky_row.specs.Columns.{ArePlacesById};
ghost use Rattle.source_rules.specs.SourceRecords.{id_of_source};
ghost use Rattle.source_row.specs.SourceColumns.{AreSourceColumns, sources_in};
ghost use Rattle.table_rules.specs.declared.limits.TheConstants.{ROWS_MOST};

use id_order::{dealt_places, repeat_among};
use sky_io::{Memory, Stop};
use sky_row::{ids_ascend, places_by_id};
use source_row::{SourceLists, SourceSchema, Sources};
use std::alloc::Global;
use table_rules::LoadFault;

/// Returns the row numbers of ids in the order of the ids. Allocates memory for each id with its row number, and for the
/// row numbers.
fn places_in_order(alloc: Global, ids: &[i64]) -> Result<Vec<u32>, Memory>
    requires few { length ids.now ≤ ROWS_MOST }
    requires low { All (λ id. pos 0 ≤ℤ id) ids.now }
    ensures { IfOk result (λ places. ArePlacesById ids.now places.items) }
{
    match dealt_places(alloc, ids)? {
        Some(places) => Ok(places),
        None => places_by_id(alloc, ids),
    }
}

/// Returns the sources with these row numbers, or the first fault of an id that an earlier one has.
fn moved(
    alloc: Global,
    schema: SourceSchema,
    lists: SourceLists,
    places: &[u32],
) -> Result<Sources, Stop<LoadFault>>
    requires are { AreSourceColumns schema lists }
    requires places { ArePlacesById lists.ids places.now }
    ensures names { IfOk result (λ all. all.names ≡ schema) }
    ensures table { IfOk result (λ all. IsInOrder id_of_source (sources_in lists) all.sources) }
    ensures bad { IfErr result (λ stop. IfBad stop (λ fault. IsRepeat lists.ids fault)) }
{
    let moved = lists.at(alloc, places)?;
    if ids_ascend(moved.ids()) {
        Ok(Sources::ascending(schema, moved))
    } else {
        Err(repeat_among(alloc, lists.ids()))
    }
}

/// Returns the sources in ascending id, or the first fault of an id that an earlier one has. Allocates memory to sort the
/// ids and for the sources in order, if the ids do not ascend already.
pub(crate) fn in_order(
    alloc: Global,
    schema: SourceSchema,
    lists: SourceLists,
) -> Result<Sources, Stop<LoadFault>>
    requires are { AreSourceColumns schema lists }
    ensures names { IfOk result (λ all. all.names ≡ schema) }
    ensures table { IfOk result (λ all. IsInOrder id_of_source (sources_in lists) all.sources) }
    ensures bad { IfErr result (λ stop. IfBad stop (λ fault. IsRepeat lists.ids fault)) }
{
    if ids_ascend(lists.ids()) {
        return Ok(Sources::ascending(schema, lists));
    }
    let places = places_in_order(alloc, lists.ids())?;
    moved(alloc, schema, lists, places.as_slice())
}
