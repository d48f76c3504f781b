//! The object of a source.

ghost use Rattle.std.specs.Prelude.{◌≡◌, ◌<◌, ◌≤◌, ◌<ℤ◌, AllPairs, IfNone, IfSome, None, Some, false, get_or, length};
ghost use Rattle.std.specs.List.{list_any};
ghost use Rattle.std.specs.Ordering.{int_eq};
ghost use Rattle.object_index.specs.Granules.{IsRowWith};
ghost use Rattle.table_rules.specs.declared.limits.TheConstants.{ROWS_MOST};
ghost use Rattle.sky_row.specs.Columns.{no_row};
ghost use Rattle.answer_rules.specs.Plans.{row_of_id};

use sky_row::Rows;

/// Returns the number of the object with the id, or `None` if no object has it. Does not allocate.
pub(crate) fn object_of(rows: &Rows, id: i64) -> Option<u32>
    ensures there { IfSome result (λ i. i < length rows.now.objects) }
    ensures found { IfSome result (λ i.
        row_of_id rows.now.objects id ≡ Some (get_or rows.now.objects i no_row)) }
    ensures none { IfNone result (row_of_id rows.now.objects id ≡ None) }
{
    // the contract of `len` gives that the ids ascend
    let _count = rows.len();
    place_of(rows.ids(), id)
}

/// Returns the index of the id among ids that ascend, or `None` if it is none of them.
fn place_of(ids: &[i64], id: i64) -> Option<u32>
    requires few { length ids.now ≤ ROWS_MOST }
    requires ascend { AllPairs (λ a b. a <ℤ b) ids.now }
    ensures found { IfSome result (IsRowWith ids.now id) }
    ensures none { IfNone result (list_any (int_eq id) ids.now ≡ false) }
{
    match consecutive_place(ids, id) {
        Some(at) => Some(at),
        None => searched_place(ids, id),
    }
}

/// Returns the index that the id has if the ids are consecutive, or `None` if another id is there.
fn consecutive_place(ids: &[i64], id: i64) -> Option<u32>
    requires few { length ids.now ≤ ROWS_MOST }
    ensures { IfSome result (IsRowWith ids.now id) }
{
    if ids.is_empty() {
        return None;
    }
    // an id before the first one gives an index beyond the list
    let at = id.wrapping_sub(ids[0]).cast_unsigned() as usize;
    if at < ids.len() && ids[at] == id {
        return Some(at as u32);
    }
    None
}

/// Returns the index of the id among ids that ascend, by a binary search, or `None` if it is none of them.
fn searched_place(ids: &[i64], id: i64) -> Option<u32>
    requires few { length ids.now ≤ ROWS_MOST }
    requires ascend { AllPairs (λ a b. a <ℤ b) ids.now }
    ensures found { IfSome result (IsRowWith ids.now id) }
    ensures none { IfNone result (list_any (int_eq id) ids.now ≡ false) }
{
    match ids.binary_search(&id) {
        Ok(at) => Some(at as u32),
        Err(_) => None,
    }
}
