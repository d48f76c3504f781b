//! A row's sort key in an answer.

ghost use Rattle.std.specs.Prelude.{◌≡◌, Some};
ghost use Rattle.answer_rules.specs.Ranks.{rank_class, rank_value};
ghost use Rattle.partial_rows.specs.Multisets.{ranked_at};

use crate::ranked::Ranked;
use sky_vector::Num;

/// The sort key of a row or a pair, with the ids of its rows. The direction of the order and NULL are encoded in it.
/// The second id is 0 if there is no second row.
#[derive(Clone, Copy, Debug, PartialEq, Eq)]
pub struct Rank {
    pub class: u8,
    pub value: i128,
    pub first: i64,
    pub second: i64,
}

impl Rank {
    /// Returns a row with this sort key and these positions of its values.
    pub(crate) fn at(&self, from: usize, to: usize) -> Ranked
        ensures { result ≡ ranked_at self.now from to }
    {
        Ranked {
            class: self.class,
            value: self.value,
            first: self.first,
            second: self.second,
            from,
            to,
        }
    }
}

/// Returns the class of the sort key that an order key has; the class separates NULL from the numbers. Does not
/// allocate.
pub fn rank_class(down: bool, key: &Option<Num>) -> u8
    ensures { result ≡ rank_class down key.now }
{
    if key.is_none() == down { 1 } else { 0 }
}

/// Returns the number of the sort key that an order key has: the order key, negated if the order is descending, or 0
/// for NULL. Does not allocate.
pub fn rank_value(down: bool, key: &Option<Num>) -> i128
    ensures { result ≡ rank_value down key.now }
{
    match key {
        None => 0,
        Some(n) => turned(down, n),
    }
}

/// Returns the number, or its negation if the order is descending.
fn turned(down: bool, n: &Num) -> i128
    ensures { result ≡ rank_value down (Some n.now) }
{
    if down { -n.get() } else { n.get() }
}
