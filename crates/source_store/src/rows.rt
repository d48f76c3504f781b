//! The rows of the object table: the chunk of each, and the row of an id if the ids are consecutive.

ghost use Rattle.std.specs.Prelude.{◌≡◌, ◌<◌, ◌+ℤ◌, IfOk, IfSome, get_or, length, pos};
ghost use Rattle.std.specs.Bool.{OnTrue};
ghost use Rattle.sky_row.specs.Columns.{no_row};
ghost use Rattle.source_store.specs.RowChunks.{AreConsecutive, AreRowChunks};

use sky_io::Memory;
use sky_plan::SkyPlan;
use sky_row::Rows;
use std::alloc::Global;

/// Returns the chunk of each row. Allocates memory for them once.
pub(crate) fn chunks_of_rows(alloc: Global, plan: &SkyPlan, rows: &Rows) -> Result<Vec<u32>, Memory>
    ensures { IfOk result (λ chunks.
        AreRowChunks plan.now rows.now.objects (length rows.now.objects) chunks.items) }
{
    let mut chunks = Vec::with_capacity(alloc, rows.len() as usize)?;
    for row in 0..rows.len() {
        let at = rows.position(row);
        chunks.push_reserved(plan.chunk_of(&at));
    }
    Ok(chunks)
}

/// Returns by how much the id is above the first one, or `None` if it is below it.
#[tactic(auto, using(crate::proofs::RowChunks::so_far_above))]
fn above(first: i64, id: i64) -> Option<usize>
    ensures { IfSome result (λ k. first +ℤ pos k ≡ id) }
{
    if id < first {
        None
    } else {
        Some(id.abs_diff(first) as usize)
    }
}

/// Returns whether the id is this much above the first one.
fn is_above(first: i64, id: i64, k: usize) -> bool
    ensures { OnTrue result (first +ℤ pos k ≡ id) }
{
    match above(first, id) {
        Some(found) => found == k,
        None => false,
    }
}

/// Returns the id of the row with this number.
fn id_at(rows: &Rows, row: u32) -> i64
    requires { row < length rows.now.objects }
    ensures { result ≡ (get_or rows.now.objects row no_row).id }
{
    rows.ids()[row as usize]
}

/// Returns whether the ids are consecutive from the first one on.
fn are_consecutive(rows: &Rows, first: i64) -> bool
    ensures { OnTrue result (AreConsecutive rows.now.objects (length rows.now.objects) first) }
{
    for row in 0..rows.len() {
        if !is_above(first, id_at(rows, row), row as usize) {
            return false;
        }
    }
    true
}

/// Returns the first id if the ids are consecutive.
pub(crate) fn first_of_consecutive(rows: &Rows) -> Option<i64>
    ensures { IfSome result (AreConsecutive rows.now.objects (length rows.now.objects)) }
{
    let first = *rows.ids().first()?;
    if are_consecutive(rows, first) {
        Some(first)
    } else {
        None
    }
}

/// Returns the number of the row with the id if the ids are consecutive from `first` on, or `None` if no row has it or
/// they are not. Does not allocate.
pub(crate) fn row_of(rows: &Rows, first: Option<i64>, id: i64) -> Option<u32>
    requires { IfSome first (AreConsecutive rows.now.objects (length rows.now.objects)) }
    ensures there { IfSome result (λ row. row < length rows.now.objects) }
    ensures has { IfSome result (λ row. (get_or rows.now.objects row no_row).id ≡ id) }
{
    match first {
        Some(first) => row_from(rows, first, id),
        None => None,
    }
}

/// Returns the number of the row with the id, or `None` if no row has it. The ids are consecutive from `first` on.
#[tactic(auto, using(crate::proofs::RowChunks::row_has))]
fn row_from(rows: &Rows, first: i64, id: i64) -> Option<u32>
    requires { AreConsecutive rows.now.objects (length rows.now.objects) first }
    ensures there { IfSome result (λ row. row < length rows.now.objects) }
    ensures has { IfSome result (λ row. (get_or rows.now.objects row no_row).id ≡ id) }
{
    let row = above(first, id)?;
    if row < rows.len() as usize {
        Some(row as u32)
    } else {
        None
    }
}
