//! A pair that sorts as one without an order key and whose values are its own two ids, packed into one number. Packed
//! pairs compare as the pairs do.

ghost use Rattle.std.specs.Prelude.{◌≡◌, ◌∷◌, [], IfSome, None, Some, slice_get, unwrap_or};
ghost use Rattle.std.specs.Bool.{OnTrue};
ghost use Rattle.partial_rows.specs.Multisets.{out_row};
ghost use Rattle.partial_rows.specs.Pairs.{first_id_of, pair_row, second_id_of};

use crate::rank::Rank;
use answer_table::values::number;
use sky_vector::Num;

/// How many numbers of 64 bits there are.
const IDS: u128 = 1 << 64;

/// The lowest number of 64 bits is this far below 0.
const BELOW: i128 = 1 << 63;

/// Returns whether the value is this id.
#[inline]
fn is_id(value: &Option<Num>, id: i64) -> bool
    ensures { OnTrue result (value.now ≡ Some id) }
{
    match value {
        None => false,
        Some(n) => n.get() == id as i128,
    }
}

/// Returns whether the values are these two ids.
#[inline]
fn are_ids(values: &[Option<Num>], first: i64, second: i64) -> bool
    ensures { OnTrue result (values.now ≡ Some first ∷ Some second ∷ []) }
{
    match values {
        [a, b] => is_id(a, first) && is_id(b, second),
        _ => false,
    }
}

/// Returns the id as a number.
fn whole(id: i64) -> Num
    ensures { result ≡ id }
{
    number(id as i128)
}

/// Returns the packed pair of these ids.
#[inline]
fn packed(first: i64, second: i64) -> u128
    ensures first { first_id_of result ≡ first }
    ensures second { second_id_of result ≡ second }
{
    (i128::from(first) + BELOW) as u128 * IDS + (i128::from(second) + BELOW) as u128
}

/// Returns the first id of a packed pair.
#[inline]
fn first_id_of(pair: u128) -> i64
    ensures { result ≡ first_id_of pair }
{
    ((pair / IDS) as i128 - BELOW) as i64
}

/// Returns the second id of a packed pair.
#[inline]
fn second_id_of(pair: u128) -> i64
    ensures { result ≡ second_id_of pair }
{
    ((pair % IDS) as i128 - BELOW) as i64
}

/// Returns the packed pair with this sort key and these values, if it has no order key and the values are its ids.
#[inline]
pub(crate) fn pair_of(rank: &Rank, values: &[Option<Num>]) -> Option<u128>
    ensures { IfSome result (λ pair. pair_row pair ≡ out_row rank.now values.now) }
{
    if rank.class == 0 && rank.value == 0 && are_ids(values, rank.first, rank.second) {
        Some(packed(rank.first, rank.second))
    } else {
        None
    }
}

/// Returns the sort key of a packed pair.
pub(crate) fn pair_sort_key(pair: u128) -> Rank
    ensures { out_row result (pair_row pair).cells ≡ pair_row pair }
{
    Rank {
        class: 0,
        value: 0,
        first: first_id_of(pair),
        second: second_id_of(pair),
    }
}

/// Returns the value of a packed pair in a column, which is NULL if there is no such column.
pub(crate) fn pair_cell(pair: u128, n: usize) -> Option<Num>
    ensures { result ≡ unwrap_or (slice_get (pair_row pair).cells n) None }
{
    match n {
        0 => Some(whole(first_id_of(pair))),
        1 => Some(whole(second_id_of(pair))),
        _ => None,
    }
}
