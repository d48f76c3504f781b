//! Candidates for the first n rows: the rows that are not beyond a cutoff, if at least n have a number up to it.
//!
//! In random order most rows that a piece keeps early are dropped again, and their values were computed in vain. So a
//! sample of the order keys suggests a cutoff, and the rows that are not beyond it are listed. If at least n of them have
//! a number up to the cutoff as their order key, no other row is one of the first n.

ghost use Rattle.std.specs.Prelude.{◌≡◌, ◌+◌, ◌++◌, ◌-◌, ◌<◌, ◌≤◌, ◌^◌, ◌∷◌, [], ℕ, All, IfOk, IfSome, OnOk, Some, count_by, false, length, true};
ghost use Rattle.sky_row.specs.Columns.{objects_at};
ghost use Rattle.sql_bound.specs.declared.query.Shape.TheVariants.{Rows as OfRows};
ghost use Rattle.answer_rules.specs.Rows.{limit_of};
ghost use Rattle.answer_rules.specs.SoundChunks.{IsSoundChunk};
ghost use Rattle.chunk_filter.specs.Values.{IsReady};
ghost use Rattle.chunk_row_scan.specs.Candidates.{HaveFirst, LackOnlyBeyond, is_row_up_to};
ghost use Rattle.chunk_row_scan.specs.Computed.{keys_on};
ghost use Rattle.chunk_row_scan.specs.Cutoffs.{is_number_up_to};
ghost use Rattle.table_rules.specs.declared.limits.TheConstants.{FIRST_COLUMNS};

use crate::columns::key_at;
use crate::cutoff::{is_number_up_to, next_within};
use crate::line::is_down;
use crate::sample::suggested_cutoff;
use answer_rules::ChunkQuery;
use chunk_filter::Scratch;
use column_block::Block;
use column_eval::ValueList;
use sky_io::Memory;
use sky_vector::Num;
use sql_bound::Int;

/// The least n for which candidates are listed. With a smaller n few rows are kept and dropped again.
const LEAST_LIMIT: usize = 32;

/// Candidates are listed only if there are at least this many rows for each of the n. With fewer, a large part of the rows
/// would be candidates.
const LEAST_EACH: usize = 8;

/// There are at most this many rows for each of the n, or the sample is too coarse for so small a part of them.
const MOST_EACH: usize = 512;

/// Returns the row numbers of candidates for the first n rows, in a vector of the scratch. Returns `None` if n is too
/// small or too large a part of the rows, if the sample suggests no cutoff, or if fewer than n of the listed rows have a
/// number up to it. Allocates memory if the scratch has no vector with enough room.
pub(crate) fn candidates(
    block: &Block,
    query: &ChunkQuery,
    keys: &Option<ValueList<'_>>,
    places: &[u32],
    scratch: &mut Scratch,
) -> Result<Option<Vec<u32>>, Memory>
    requires shape { query.now.shape ≡ OfRows }
    requires sound { IsSoundChunk (FIRST_COLUMNS + block.now.width) query.now }
    requires there { All (λ place. place < length block.now.objects) places.now }
    requires keys { keys.now
        ≡ keys_on (objects_at block.now.objects places.now) query.now.order }
    ensures there { IfOk result (λ found. IfSome found (λ listed.
        All (λ place. place < length block.now.objects) listed.items)) }
    ensures first { IfOk result (λ found. IfSome found (λ listed.
        HaveFirst query.now (objects_at block.now.objects places.now)
        (objects_at block.now.objects listed.items))) }
{
    // the contract of `len` gives that each row is within its limits
    let _count = block.len();
    match limit_well_below(query.limit, places.len()) {
        None => Ok(None),
        Some(n) => {
            let cutoff = suggested_cutoff(keys, is_down(&query.order), n, places.len());
            if cutoff.is_none() {
                return Ok(None);
            }
            let (listed, numbers) = rows_not_beyond(block, query, keys, &cutoff, places, scratch)?;
            if numbers < n {
                scratch.places.give(listed);
                return Ok(None);
            }
            Ok(Some(listed))
        }
    }
}

/// Returns the limit n if it is at least `LEAST_LIMIT`, and there are at least `LEAST_EACH` and at most `MOST_EACH` rows for
/// each of the n.
fn limit_well_below(limit: Option<Int>, count: usize) -> Option<usize>
    ensures { IfSome result (λ n. limit_of limit ≡ Some n) }
{
    let n = limit?.get().unsigned_abs() as usize;
    if n < LEAST_LIMIT || count / LEAST_EACH < n || n < count / MOST_EACH {
        return None;
    }
    Some(n)
}

/// Returns the row numbers of all rows that are not beyond the cutoff, in a vector of the scratch, and how many of the
/// listed rows have a number up to the cutoff as their order key. The first row is always listed, even if it is beyond.
fn rows_not_beyond(
    block: &Block,
    query: &ChunkQuery,
    keys: &Option<ValueList<'_>>,
    cutoff: &Option<Num>,
    places: &[u32],
    scratch: &mut Scratch,
) -> Result<(Vec<u32>, usize), Memory>
    requires ready { (i : ℕ) → i < length places.now → IsReady (i + 1) keys.now }
    requires there { All (λ place. place < length block.now.objects) places.now }
    requires keys { keys.now
        ≡ keys_on (objects_at block.now.objects places.now) query.now.order }
    ensures there { IfOk result (λ r. All (λ place. place < length block.now.objects) r.0.items) }
    ensures all { IfOk result (λ r. LackOnlyBeyond query.now cutoff.now
        (objects_at block.now.objects places.now) (objects_at block.now.objects r.0.items)) }
    ensures numbers { IfOk result (λ r. r.1
        ≡ count_by (is_row_up_to query.now cutoff.now) (objects_at block.now.objects r.0.items)) }
{
    let down = is_down(&query.order);
    let mut listed = scratch.places.take(0)?;
    let mut numbers = 0usize;
    let mut i = 0usize;
    while i < places.len() {
        put(&mut listed, places[i])?;
        numbers = count_with(numbers, down, cutoff, &key_at(keys, i));
        i = next_within(keys, down, cutoff, i + 1, places.len());
    }
    Ok((listed, numbers))
}

/// Appends the row number.
fn put(listed: &mut Vec<u32>, place: u32) -> Result<(), Memory>
    ensures { OnOk result (listed.new.items ≡ listed.old.items ++ place ∷ []) }
{
    Ok(listed.push(place)?)
}

/// Returns the count with a row of this order key, which counts if the key is a number up to the cutoff.
fn count_with(count: usize, down: bool, cutoff: &Option<Num>, key: &Option<Num>) -> usize
    requires room { count < 2 ^ 64 - 1 }
    ensures yes { is_number_up_to down cutoff.now key.now ≡ true → result ≡ count + 1 }
    ensures no { is_number_up_to down cutoff.now key.now ≡ false → result ≡ count }
    ensures most { result ≤ count + 1 }
{
    if is_number_up_to(down, cutoff, key) {
        count + 1
    } else {
        count
    }
}
