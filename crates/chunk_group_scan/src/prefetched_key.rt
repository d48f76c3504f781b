//! The prefetched key column: the values of the first key column, in the order of the rows.
//!
//! A key is read once for each run of rows. In the column these rows are anywhere, and much work is done between two
//! keys. So each read would be a cache miss that is waited for. A short loop over all rows has many reads in flight at
//! one time.

ghost use Rattle.std.specs.Prelude.{◌≡◌, ◌+◌, ◌++◌, ◌<◌, ◌≤◌, [], All, IfOk, IsTrue, None, false, get_or, length, map, vec_capacity, vec_len};
ghost use Rattle.std.specs.List.{list_all};
ghost use Rattle.table_rules.specs.declared.limits.TheConstants.{FIRST_COLUMNS};
ghost use Rattle.sky_row.specs.Columns.{no_row, objects_at};
ghost use Rattle.value_rules.specs.Sound.{has_col};
ghost use Rattle.value_rules.specs.Values.{cell_of, row};
ghost use Rattle.chunk_group_scan.specs.Prefetched.{IsPrefetched, first_keys};

use chunk_filter::Scratch;
use column_block::Block;
use sky_io::Memory;
use sql_bound::BoundCol;

/// The values are listed only if runs have at most this number of rows on average: in longer runs few keys are read.
const LONG: usize = 8;

/// Returns the values of the first key column on the selected rows if runs are short, and otherwise an empty list. The
/// list is a vector of the scratch. `starts` is true for each row that begins a run.
#[tactic(auto, using(crate::proofs::Prefetching::full_prefetched, crate::proofs::Prefetching::none_prefetched))]
pub(crate) fn copied(
    block: &Block,
    keys: &[BoundCol],
    places: &[u32],
    starts: &[bool],
    scratch: &mut Scratch,
) -> Result<Vec<Option<i64>>, Memory>
    requires there { All (λ place. place < length block.now.objects) places.now }
    requires sound { IsTrue (list_all (has_col (FIRST_COLUMNS + block.now.width) false) keys.now) }
    ensures { IfOk result (λ copied.
        IsPrefetched keys.now (objects_at block.now.objects places.now) copied.items) }
{
    if are_many(starts) {
        let copied = full_column(block, keys, places, scratch)?;
        return Ok(copied);
    }
    let none = scratch.cells.take(0)?;
    Ok(none)
}

/// Returns whether runs are short enough for the values to be listed.
fn are_many(starts: &[bool]) -> bool {
    let mut count = 0usize;
    for start in starts {
        count = count.saturating_add(usize::from(*start));
    }
    count > starts.len() / LONG
}

/// Returns the values of the first key column on all these rows, or an empty list if there is no key column.
fn full_column(
    block: &Block,
    keys: &[BoundCol],
    places: &[u32],
    scratch: &mut Scratch,
) -> Result<Vec<Option<i64>>, Memory>
    requires there { All (λ place. place < length block.now.objects) places.now }
    requires sound { IsTrue (list_all (has_col (FIRST_COLUMNS + block.now.width) false) keys.now) }
    ensures { IfOk result (λ copied. copied.items
        ≡ first_keys keys.now (objects_at block.now.objects places.now)) }
{
    let mut copied = scratch.cells.take(places.len())?;
    put_column(&mut copied, block, keys, places);
    Ok(copied)
}

/// Returns the value of the row at this index in the first key column: from the list, or else from the column.
#[tactic(auto, using(crate::proofs::Prefetching::first_key_at))]
pub(crate) fn first_value(
    block: &Block,
    keys: &[BoundCol],
    places: &[u32],
    copied: &[Option<i64>],
    j: usize,
) -> Option<i64>
    requires some { 0 < length keys.now }
    requires there { All (λ place. place < length block.now.objects) places.now }
    requires sound { IsTrue (list_all (has_col (FIRST_COLUMNS + block.now.width) false) keys.now) }
    requires at { j < length places.now }
    requires copied { IsPrefetched keys.now (objects_at block.now.objects places.now) copied.now }
    ensures { result
        ≡ get_or (first_keys keys.now (objects_at block.now.objects places.now)) j None }
{
    match copied.get(j) {
        Some(value) => *value,
        None => cell(block, &keys[0], places[j] as usize),
    }
}

/// Appends these values to an empty list with room for one value a row. Does not allocate.
fn put_column(copied: &mut Vec<Option<i64>>, block: &Block, keys: &[BoundCol], places: &[u32])
    requires empty { copied.old.items ≡ [] }
    requires room { length places.now ≤ vec_capacity copied.old }
    requires there { All (λ place. place < length block.now.objects) places.now }
    requires sound { IsTrue (list_all (has_col (FIRST_COLUMNS + block.now.width) false) keys.now) }
    ensures { copied.new.items ≡ first_keys keys.now (objects_at block.now.objects places.now) }
{
    match keys {
        [] => (),
        [key, ..] => put_cells(copied, block, key, places),
    }
}

/// Appends the values of a key column on the selected rows. Does not allocate.
fn put_cells(copied: &mut Vec<Option<i64>>, block: &Block, key: &BoundCol, places: &[u32])
    requires room { vec_len copied.old + length places.now ≤ vec_capacity copied.old }
    requires there { All (λ place. place < length block.now.objects) places.now }
    requires col { IsTrue (has_col (FIRST_COLUMNS + block.now.width) false key.now) }
    ensures { copied.new.items ≡ copied.old.items
        ++ map (λ o. cell_of (row o) key.now) (objects_at block.now.objects places.now) }
{
    for place in places {
        copied.push_reserved(cell(block, key, *place as usize));
    }
}

/// Returns the value of the row with this number in a key column.
pub(crate) fn cell(block: &Block, key: &BoundCol, place: usize) -> Option<i64>
    requires there { place < length block.now.objects }
    requires col { IsTrue (has_col (FIRST_COLUMNS + block.now.width) false key.now) }
    ensures { result ≡ cell_of (row (get_or block.now.objects place no_row)) key.now }
{
    match key.col {
        0 => Some(block.ids()[place]),
        1 => Some(i64::from(block.xs()[place])),
        2 => Some(i64::from(block.ys()[place])),
        3 => Some(i64::from(block.zs()[place])),
        col => block.further(col).get(place),
    }
}
