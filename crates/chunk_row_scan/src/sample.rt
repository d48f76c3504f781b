//! The cutoff that a sample of the order keys suggests for the first n rows.
//!
//! Nothing is promised of it: fewer than n rows may be up to it, or nearly all.

ghost use Rattle.std.specs.Prelude.{◌+◌, ◌<◌, ℕ};
ghost use Rattle.chunk_filter.specs.Values.{IsReady};

use crate::columns::key_at;
use column_eval::ValueList;
use sky_vector::Num;

/// How many order keys the sample has.
const SAMPLE: usize = 128;

/// NULL in the sample: it comes before all numbers in an ascending order, and after them in a descending one.
const NULL: i128 = i128::MIN;

/// Returns a key of the sample up to which there are probably at least n rows: mostly two to six times n, and hardly
/// fewer than one row in 26. Returns `None` if that key is NULL. Does not allocate.
pub(crate) fn suggested_cutoff(
    keys: &Option<ValueList<'_>>,
    down: bool,
    n: usize,
    count: usize,
) -> Option<Num>
    requires ready { (i : ℕ) → i < count → IsReady (i + 1) keys.now }
{
    let step = count / SAMPLE;
    let mut sample = [NULL; SAMPLE];
    let mut i = 0usize;
    for slot in sample.iter_mut() {
        if i < count {
            *slot = number_in(&key_at(keys, i));
        }
        i = i.saturating_add(step);
    }
    let (_, key, _) = sample.select_nth_unstable(sample_index(down, n / step.max(1)));
    Num::new(*key)
}

/// Returns the number, or `NULL`.
fn number_in(key: &Option<Num>) -> i128 {
    match key {
        None => NULL,
        Some(n) => n.get(),
    }
}

/// Returns the index, in the ascending sample, of a key that comes after about the given number of others in the order,
/// and after some more to be safe.
fn sample_index(down: bool, before: usize) -> usize
    ensures { result < SAMPLE }
{
    let index = before.saturating_add(before / 4 + 4).min(SAMPLE - 1);
    if down { SAMPLE - 1 - index } else { index }
}
