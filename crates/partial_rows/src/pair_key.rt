//! Short pairs: if both ids of a pair are from 0 to below 2^32, the pair is packed into one number of 64 bits, its packed
//! key. Packed keys compare as the pairs do.

ghost use Rattle.std.specs.Prelude.{◌≡◌, ◌+◌, ◌*◌, ◌^◌, IfSome, None, slice_get, unwrap_or};
ghost use Rattle.partial_rows.specs.PackedKeys.{pair_in};
ghost use Rattle.partial_rows.specs.Pairs.{first_id_of, pair_row, second_id_of};

use answer_table::values::number;
use sky_vector::Num;

/// How many numbers one half of a packed key can hold.
const HALF: u64 = 1 << 32;

/// How many numbers one half of a pair can hold.
const IDS: u128 = 1 << 64;

/// The id 0 in a pair.
const ZERO: u128 = 1 << 63;

/// Returns the id of one half of a pair, if it is from 0 to below 2^32.
#[inline]
fn short_id(half: u128) -> Option<u32>
    ensures { IfSome result (λ short. short + 2 ^ 63 ≡ half) }
{
    if ZERO <= half && half - ZERO <= u32::MAX as u128 {
        Some((half - ZERO) as u32)
    } else {
        None
    }
}

/// Returns the packed key of these halves.
#[inline]
fn packed(high: u32, low: u32) -> u64
    ensures { pair_in result ≡ (high + 2 ^ 63) * 2 ^ 64 + (low + 2 ^ 63) }
{
    u64::from(high) * HALF + u64::from(low)
}

/// Returns the packed key of the pair, if it has one.
#[inline]
pub(crate) fn short_of(pair: u128) -> Option<u64>
    ensures { IfSome result (λ key. pair_in key ≡ pair) }
{
    let high = short_id(pair / IDS)?;
    let low = short_id(pair % IDS)?;
    Some(packed(high, low))
}

/// Returns the pair of a packed key.
#[inline]
pub(crate) fn pair_in(key: u64) -> u128
    ensures { result ≡ pair_in key }
{
    (u128::from(key / HALF) + ZERO) * IDS + (u128::from(key % HALF) + ZERO)
}

/// Returns the first id of a packed key's pair.
#[inline]
fn first_id_of(key: u64) -> Num
    ensures { result ≡ first_id_of (pair_in key) }
{
    number((key / HALF) as i128)
}

/// Returns the second id of a packed key's pair.
#[inline]
fn second_id_of(key: u64) -> Num
    ensures { result ≡ second_id_of (pair_in key) }
{
    number((key % HALF) as i128)
}

/// Returns the value of a packed key's pair in a column, which is NULL if there is no such column.
#[inline]
pub(crate) fn short_cell(key: u64, n: usize) -> Option<Num>
    ensures { result ≡ unwrap_or (slice_get (pair_row (pair_in key)).cells n) None }
{
    match n {
        0 => Some(first_id_of(key)),
        1 => Some(second_id_of(key)),
        _ => None,
    }
}
