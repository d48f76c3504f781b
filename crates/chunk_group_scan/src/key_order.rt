//! The selected rows in an order in which rows with the same key are adjacent.
//!
//! Each row becomes one packed key: a number made of its key, followed by its row number. Packed keys with the same
//! number are brought together. No row and no key is allocated separately.

ghost use Rattle.std.specs.Prelude.{◌≡◌, ◌+◌, ◌<◌, ◌≤◌, All, IfOk, IsTrue, false, length, replicate};
ghost use Rattle.std.specs.List.{list_all};
ghost use Rattle.std.specs.List.Sorted.{IsPermutation};
ghost use Rattle.table_rules.specs.declared.limits.TheConstants.{FIRST_COLUMNS, ROWS_MOST};
ghost use Rattle.value_rules.specs.Sound.{has_col};

use crate::clustering::cluster;
use crate::packed_key::{mix_narrow, mix_presence, mix_wide, put_places, take_places};
use crate::radix_partition::deal_by_bits;
use chunk_filter::Scratch;
use column_block::Block;
use sky_io::Memory;
use sky_row::Column;
use sql_bound::BoundCol;

/// Returns the row numbers with those of the same key together, in a vector of the scratch. Uses two packed keys and a
/// row number for each row, 20 bytes.
pub(crate) fn by_key(
    block: &Block,
    keys: &[BoundCol],
    places: &[u32],
    scratch: &mut Scratch,
) -> Result<Vec<u32>, Memory>
    requires few { length block.now.objects ≤ ROWS_MOST }
    requires there { All (λ place. place < length block.now.objects) places.now }
    requires sound { IsTrue (list_all (has_col (FIRST_COLUMNS + block.now.width) false) keys.now) }
    ensures { IfOk result (λ order. IsPermutation places.now order.items) }
{
    let mut words = scratch.words.filled(0, places.len())?;
    let mut spare = scratch.words.sized(0, places.len())?;
    let mut order = scratch.places.sized(0, places.len())?;
    put_numbers(words.as_mut_slice(), block, keys, places);
    reorder(
        words.as_mut_slice(),
        spare.as_mut_slice(),
        places,
        order.as_mut_slice(),
    );
    scratch.words.give(words);
    scratch.words.give(spare);
    Ok(order)
}

/// Writes the row numbers to `order`, those with the same number together. `spare` is room for as many packed keys.
#[tactic(auto, using(crate::proofs::Apart::places_moved, crate::proofs::Apart::places_told))]
fn reorder(numbers: &mut [u64], spare: &mut [u64], places: &[u32], order: &mut [u32])
    requires len { length numbers.old ≡ length places.now }
    requires room { length spare.old ≡ length places.now }
    requires long { length order.old ≡ length places.now }
    requires few { All (λ place. place < ROWS_MOST) places.now }
    ensures { IsPermutation places.now order.new }
{
    put_places(numbers, places);
    if deal_by_bits(numbers, spare, order) {
        return;
    }
    cluster(numbers, spare);
    take_places(numbers, order);
}

/// Makes each number that of the key of its selected row.
fn put_numbers(numbers: &mut [u64], block: &Block, keys: &[BoundCol], places: &[u32])
    requires len { length numbers.old ≡ length places.now }
    requires there { All (λ place. place < length block.now.objects) places.now }
    requires sound { IsTrue (list_all (has_col (FIRST_COLUMNS + block.now.width) false) keys.now) }
    ensures { length numbers.new ≡ length numbers.old }
{
    for key in keys {
        mix(numbers, block, key.col, places);
    }
}

/// Mixes the values of a column of the block into the numbers.
fn mix(numbers: &mut [u64], block: &Block, col: u32, places: &[u32])
    requires len { length numbers.old ≡ length places.now }
    requires there { All (λ place. place < length block.now.objects) places.now }
    requires col { col < FIRST_COLUMNS + block.now.width }
    ensures { length numbers.new ≡ length numbers.old }
{
    match col {
        0 => mix_wide(numbers, block.ids(), places),
        1 => mix_narrow(numbers, block.xs(), places),
        2 => mix_narrow(numbers, block.ys(), places),
        3 => mix_narrow(numbers, block.zs(), places),
        _ => mix_further(numbers, block.further(col), places),
    }
}

/// Mixes the validity and the values of an extra column into the numbers.
fn mix_further(numbers: &mut [u64], column: &Column, places: &[u32])
    requires len { length numbers.old ≡ length places.now }
    requires there { All (λ place. place < length column.now) places.now }
    ensures { length numbers.new ≡ length numbers.old }
{
    mix_presence_of(numbers, column, places);
    mix_wide(numbers, column.values(), places);
}

/// Mixes the validity of a column into the numbers, if it has rows with NULL. It is mixed in before the values, so that
/// numbers ascend with the values.
fn mix_presence_of(numbers: &mut [u64], column: &Column, places: &[u32])
    requires len { length numbers.old ≡ length places.now }
    requires there { All (λ place. place < length column.now) places.now }
    ensures { length numbers.new ≡ length numbers.old }
{
    if let Some(present) = column.present() {
        mix_presence(numbers, present, places);
    }
}
