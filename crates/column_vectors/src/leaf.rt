//! The leaves of an expression: a number is the same on each row, and a column is read at the selected rows.
ghost use Rattle.std.specs.Prelude.{◌≡◌, ◌+◌, ◌<◌, ◌≤◌, [], Some, IfOk, IfSome, All, length, map, nat_abs, replicate, vec_capacity, is_some};
ghost use Rattle.column_vectors.specs.Lanes.{IsRead, IsRepeated};
ghost use Rattle.column_lists.specs.Columns.{IsGathered};
ghost use Rattle.sky_row.specs.Columns.{column_in};
ghost use Rattle.table_rules.specs.Objects.{column_bound};
ghost use Rattle.table_rules.specs.declared.limits.TheConstants.{FIRST_COLUMNS, FURTHER_MOST};

use crate::lane::Lane;
use crate::numbers::Numbers;
use crate::scratch::Scratch;
use column_block::Block;
use sky_io::Memory;
use sky_row::Column;
use sky_vector::limits::COORDINATE_MOST;
use table_rules::limits::{FURTHER_MOST, ID_MOST};

/// Returns a number that is the same on each of the given number of rows. Allocates memory for its flags.
pub fn literal(n: i64, count: usize, scratch: &mut Scratch) -> Result<Lane, Memory>
    ensures { IfOk result (λ lane. IsRepeated n count lane) }
{
    let known = repeated(true, count, scratch.flags.take(count)?);
    Ok(Lane {
        numbers: Numbers::Same(n, count),
        known,
        bound: u128::from(n.unsigned_abs()),
    })
}

/// Returns a column of a block by its number, at the rows with these numbers. Allocates memory for it.
pub fn read(block: &Block, places: &[u32], col: u32, scratch: &mut Scratch) -> Result<Lane, Memory>
    requires there { All (λ place. place < length block.now.objects) places.now }
    requires col { col < FIRST_COLUMNS + block.now.width }
    ensures { IfOk result (λ lane. IsRead (column_in block.now.objects col) places.now
        (nat_abs (column_bound col)) lane) }
{
    match col {
        0 => whole(block.ids(), places, u128::from(ID_MOST), scratch),
        1 => whole_short(block.xs(), places, u128::from(COORDINATE_MOST), scratch),
        2 => whole_short(block.ys(), places, u128::from(COORDINATE_MOST), scratch),
        3 => whole_short(block.zs(), places, u128::from(COORDINATE_MOST), scratch),
        _ => further(block.further(col), places, scratch),
    }
}

/// Returns the numbers of a column that has one for each row, at the rows with these numbers. Allocates memory for
/// them.
pub(crate) fn whole(
    values: &[i64],
    places: &[u32],
    bound: u128,
    scratch: &mut Scratch,
) -> Result<Lane, Memory>
    requires { All (λ place. place < length values.now) places.now }
    ensures { IfOk result (λ lane. IsRead (map Some values.now) places.now bound lane) }
{
    let numbers = gathered(values, places, scratch.narrow.take(places.len())?);
    let known = repeated(true, places.len(), scratch.flags.take(places.len())?);
    Ok(Lane {
        numbers: Numbers::Narrow(numbers),
        known,
        bound,
    })
}

/// Returns the numbers of a column of 32 bits, at the rows with these numbers. Allocates memory for them.
pub(crate) fn whole_short(
    values: &[i32],
    places: &[u32],
    bound: u128,
    scratch: &mut Scratch,
) -> Result<Lane, Memory>
    requires { All (λ place. place < length values.now) places.now }
    ensures { IfOk result (λ lane. IsRead (map Some values.now) places.now bound lane) }
{
    let numbers = gathered_short(values, places, scratch.narrow.take(places.len())?);
    let known = repeated(true, places.len(), scratch.flags.take(places.len())?);
    Ok(Lane {
        numbers: Numbers::Narrow(numbers),
        known,
        bound,
    })
}

/// Returns the numbers of an extra column at the rows with these numbers, and which of them are valid. Allocates memory
/// for them.
pub fn further(column: &Column, places: &[u32], scratch: &mut Scratch) -> Result<Lane, Memory>
    requires { All (λ place. place < length column.now) places.now }
    ensures { IfOk result (λ lane. IsRead column.now places.now FURTHER_MOST lane) }
{
    let numbers = gathered(column.values(), places, scratch.narrow.take(places.len())?);
    let known = known(column, places, scratch.flags.take(places.len())?);
    Ok(Lane {
        numbers: Numbers::Narrow(numbers),
        known,
        bound: u128::from(FURTHER_MOST),
    })
}

/// Returns the numbers of a column, if none of its values is NULL.
pub fn numbers_if_whole(column: &Column) -> Option<&[i64]>
    ensures { IfSome result (λ values. map Some values.now ≡ column.now) }
{
    match column.present() {
        Some(_) => None,
        None => Some(column.values()),
    }
}

/// Returns which of the rows with these numbers have a value in an extra column. `found` is an empty vector that has
/// room for them.
fn known(column: &Column, places: &[u32], found: Vec<bool>) -> Vec<bool>
    requires there { All (λ place. place < length column.now) places.now }
    requires empty { found.items ≡ [] }
    requires room { length places.now ≤ vec_capacity found }
    ensures { IsGathered (map is_some column.now) places.now result.items }
{
    match column.present() {
        Some(present) => gathered(present, places, found),
        None => repeated(true, places.len(), found),
    }
}

/// Returns an item repeated `count` times. `found` is an empty vector that has room for it.
pub fn repeated<T: Copy>(item: T, count: usize, found: Vec<T>) -> Vec<T>
    requires empty { found.items ≡ [] }
    requires room { count ≤ vec_capacity found }
    ensures { result.items ≡ replicate count item }
{
    let mut found = found;
    for turn in 0..count {
        found.push_reserved(item);
    }
    found
}

/// Returns the values of the rows with these numbers. `found` is an empty vector that has room for them.
fn gathered<T: Copy>(values: &[T], places: &[u32], found: Vec<T>) -> Vec<T>
    requires there { All (λ place. place < length values.now) places.now }
    requires empty { found.items ≡ [] }
    requires room { length places.now ≤ vec_capacity found }
    ensures { IsGathered values.now places.now result.items }
{
    let mut found = found;
    for place in places {
        found.push_reserved(values[*place as usize]);
    }
    found
}

/// Returns the values of the rows with these numbers, from values of 32 bits. `found` is an empty vector that has room
/// for them.
fn gathered_short(values: &[i32], places: &[u32], found: Vec<i64>) -> Vec<i64>
    requires there { All (λ place. place < length values.now) places.now }
    requires empty { found.items ≡ [] }
    requires room { length places.now ≤ vec_capacity found }
    ensures { IsGathered values.now places.now result.items }
{
    let mut found = found;
    for place in places {
        found.push_reserved(i64::from(values[*place as usize]));
    }
    found
}
