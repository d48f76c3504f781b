//! The cutoff of the first n rows: the order key of a row that came after n others.
//!
//! A row whose order key comes after the cutoff is none of the first n either. So once there is a cutoff, most rows are
//! skipped by their order keys alone, in a loop that does nothing else. Each other row is offered to the piece. If it
//! comes too late, its order key is the next cutoff. NULL is never a cutoff, and a row with it is never skipped here.
//! The cutoff of `candidates` is another one, from a sample.

ghost use Rattle.std.specs.Prelude.{◌≡◌, ◌<◌, ◌≤◌, ℕ, IfSome, None, Some, false, get_or, length, true};
ghost use Rattle.chunk_row_scan.specs.Computed.{key_in};
ghost use Rattle.chunk_row_scan.specs.Cutoffs.{cutoff_after, is_beyond, is_number_up_to};

use column_eval::ValueList;
use sky_vector::Num;

/// Makes the order key of a row that was offered the cutoff if the row came too late, unless the key is NULL. Does not
/// allocate.
pub(crate) fn update(cutoff: &mut Option<Num>, late: bool, key: Option<Num>)
    ensures { cutoff.new ≡ cutoff_after late cutoff.old key }
{
    if let (true, Some(n)) = (late, key) {
        *cutoff = Some(n);
    }
}

/// Returns the index, from this one on, of the first row whose order key is not beyond the cutoff, or the number of
/// rows if there is none. Without an order or a cutoff no row is skipped. Does not allocate.
pub(crate) fn next_within(
    keys: &Option<ValueList<'_>>,
    down: bool,
    cutoff: &Option<Num>,
    from: usize,
    count: usize,
) -> usize
    requires count { IfSome keys.now (λ keys. length keys ≡ count) }
    requires there { from ≤ count }
    ensures order { from ≤ result }
    ensures most { result ≤ count }
    ensures beyond { (j : ℕ) → from ≤ j → j < result
        → is_beyond down cutoff.now (key_in keys.now j) ≡ true }
{
    match (keys, cutoff) {
        (Some(keys), Some(cutoff)) => first_within(keys, down, cutoff.get(), from),
        _ => from,
    }
}

/// Returns the index, from this one on, of the first key that is not beyond the cutoff, or the number of keys. Each
/// direction has its own loop, which does not ask for the direction at each key.
fn first_within(keys: &ValueList<'_>, down: bool, cutoff: i128, from: usize) -> usize
    requires { from ≤ length keys.now }
    ensures order { from ≤ result }
    ensures most { result ≤ length keys.now }
    ensures beyond { (j : ℕ) → from ≤ j → j < result
        → is_beyond down (Some cutoff) (get_or keys.now j None) ≡ true }
{
    if down {
        first_descending(keys, cutoff, from)
    } else {
        first_ascending(keys, cutoff, from)
    }
}

/// Returns the first index, from this one on, whose key is not below the cutoff, for a descending order, or the number
/// of keys.
// not inlined, so that the compiler makes a loop for each direction and does not ask for the direction at each key
#[inline(never)]
fn first_descending(keys: &ValueList<'_>, cutoff: i128, from: usize) -> usize
    requires { from ≤ length keys.now }
    ensures order { from ≤ result }
    ensures most { result ≤ length keys.now }
    ensures beyond { (j : ℕ) → from ≤ j → j < result
        → is_beyond true (Some cutoff) (get_or keys.now j None) ≡ true }
{
    for j in from..keys.len() {
        if !is_beyond(true, cutoff, keys.get(j)) {
            return j;
        }
    }
    keys.len()
}

/// Returns the first index, from this one on, whose key is not above the cutoff, for an ascending order, or the number
/// of keys.
// not inlined, as its counterpart for a descending order is not
#[inline(never)]
fn first_ascending(keys: &ValueList<'_>, cutoff: i128, from: usize) -> usize
    requires { from ≤ length keys.now }
    ensures order { from ≤ result }
    ensures most { result ≤ length keys.now }
    ensures beyond { (j : ℕ) → from ≤ j → j < result
        → is_beyond false (Some cutoff) (get_or keys.now j None) ≡ true }
{
    for j in from..keys.len() {
        if !is_beyond(false, cutoff, keys.get(j)) {
            return j;
        }
    }
    keys.len()
}

/// Returns whether the order key is a number that comes after the cutoff.
#[inline(always)]
fn is_beyond(down: bool, cutoff: i128, key: Option<i128>) -> bool
    ensures { result ≡ is_beyond down (Some cutoff) key }
{
    match key {
        None => false,
        Some(n) => comes_after(down, cutoff, n),
    }
}

/// Returns whether the number comes after the cutoff.
#[inline(always)]
fn comes_after(down: bool, cutoff: i128, n: i128) -> bool
    ensures { result ≡ is_beyond down (Some cutoff) (Some n) }
{
    if down { n < cutoff } else { cutoff < n }
}

/// Returns whether there is a cutoff and the order key is a number that does not come after it. Does not allocate.
pub(crate) fn is_number_up_to(down: bool, cutoff: &Option<Num>, key: &Option<Num>) -> bool
    ensures { result ≡ is_number_up_to down cutoff.now key.now }
{
    match (cutoff, key) {
        (Some(cutoff), Some(n)) => !comes_after(down, cutoff.get(), n.get()),
        _ => false,
    }
}
