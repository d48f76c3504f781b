//! The values of one key column on the selected rows, if none of them is NULL.
//!
//! The ids, and an extra column without a NULL, are slices of 64-bit numbers in the block. Of such a column each value is
//! one read, and if all rows are selected, the slice is copied as a whole. In any other column the value of each row
//! is read by itself, up to the first NULL.

ghost use Rattle.std.specs.Prelude.{◌≡◌, ◌+◌, ◌<◌, ◌≤◌, [], All, IfOk, IfSome, IsTrue, Some, false, length, map, vec_capacity, vec_len};
ghost use Rattle.std.specs.Bool.{OnTrue};
ghost use Rattle.std.specs.List.{range_with_len};
ghost use Rattle.table_rules.specs.declared.limits.TheConstants.{FIRST_COLUMNS};
ghost use Rattle.sky_row.specs.Columns.{objects_at};
ghost use Rattle.value_rules.specs.Sound.{has_col};
ghost use Rattle.value_rules.specs.Values.{cell_of, row};
ghost use Rattle.column_vectors.specs.PickedColumns.{numbers_at};

use crate::prefetched_key::cell;
use column_block::Block;
use column_vectors::leaf::numbers_if_whole;
use sky_io::Memory;
use sql_bound::BoundCol;
use std::alloc::Global;

/// Returns the values of the key column on the selected rows, if none is NULL. Allocates memory for them once.
pub(crate) fn key_values(
    alloc: Global,
    block: &Block,
    key: &BoundCol,
    places: &[u32],
) -> Result<Option<Vec<i64>>, Memory>
    requires there { All (λ place. place < length block.now.objects) places.now }
    requires col { IsTrue (has_col (FIRST_COLUMNS + block.now.width) false key.now) }
    ensures { IfOk result (λ all. IfSome all (λ values. map Some values.items
        ≡ map (λ o. cell_of (row o) key.now) (objects_at block.now.objects places.now))) }
{
    let Some(numbers) = numbers_of(block, key) else {
        return present_values(alloc, block, key, places);
    };
    let values = selected(alloc, numbers, places)?;
    Ok(Some(values))
}

/// Returns the numbers of the key column, one for each row of the block, if they are 64-bit numbers and none is NULL.
fn numbers_of<'a>(block: &'a Block, key: &BoundCol) -> Option<&'a [i64]>
    requires col { IsTrue (has_col (FIRST_COLUMNS + block.now.width) false key.now) }
    ensures { IfSome result (λ numbers. map Some numbers.now
        ≡ map (λ o. cell_of (row o) key.now) block.now.objects) }
{
    match key.col {
        0 => Some(block.ids()),
        1 => None,
        2 => None,
        3 => None,
        col => numbers_if_whole(block.further(col)),
    }
}

/// Returns the numbers of the selected rows. Allocates memory for them once.
fn selected(alloc: Global, numbers: &[i64], places: &[u32]) -> Result<Vec<i64>, Memory>
    requires there { All (λ place. place < length numbers.now) places.now }
    ensures { IfOk result (λ values. values.items ≡ numbers_at numbers.now places.now) }
{
    if are_all_rows(places, numbers.len()) {
        let whole = Vec::from_slice(alloc, numbers)?;
        return Ok(whole);
    }
    let mut values = Vec::with_capacity(alloc, places.len())?;
    for place in places {
        values.push_reserved(numbers[*place as usize]);
    }
    Ok(values)
}

/// Returns true only if these are the numbers of `count` rows, from 0, each once and in ascending order.
fn are_all_rows(places: &[u32], count: usize) -> bool
    ensures { OnTrue result (places.now ≡ range_with_len 0 count) }
{
    if places.len() != count {
        return false;
    }
    let mut all = true;
    for i in 0..count {
        all = all & (places[i] as usize == i);
    }
    all
}

/// Returns the values of the key column on the selected rows, if none is NULL, one after another.
fn present_values(
    alloc: Global,
    block: &Block,
    key: &BoundCol,
    places: &[u32],
) -> Result<Option<Vec<i64>>, Memory>
    requires there { All (λ place. place < length block.now.objects) places.now }
    requires col { IsTrue (has_col (FIRST_COLUMNS + block.now.width) false key.now) }
    ensures { IfOk result (λ all. IfSome all (λ values. map Some values.items
        ≡ map (λ o. cell_of (row o) key.now) (objects_at block.now.objects places.now))) }
{
    let mut values = Vec::with_capacity(alloc, places.len())?;
    if put_values(&mut values, block, key, places) {
        return Ok(Some(values));
    }
    Ok(None)
}

/// Appends the values of the key column on the selected rows, up to a NULL. Returns true only if there is none. Does not
/// allocate.
fn put_values(values: &mut Vec<i64>, block: &Block, key: &BoundCol, places: &[u32]) -> bool
    requires empty { values.old.items ≡ [] }
    requires room { length places.now ≤ vec_capacity values.old }
    requires none { vec_len values.old ≡ 0 }
    requires there { All (λ place. place < length block.now.objects) places.now }
    requires col { IsTrue (has_col (FIRST_COLUMNS + block.now.width) false key.now) }
    ensures { OnTrue result (map Some values.new.items
        ≡ map (λ o. cell_of (row o) key.now) (objects_at block.now.objects places.now)) }
{
    for place in places {
        let Some(value) = cell(block, key, *place as usize) else {
            return false;
        };
        values.push_reserved(value);
    }
    true
}
