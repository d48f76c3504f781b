//! The key of a group. It allocates memory only if it has more than four values, and no query has such keys.
//!
//! An aggregation table has a key for each of its groups, and moves and compares them all the time. So a key of few
//! values has 40 bytes. A key of a single number, as most are, is compared as that number.

ghost use Rattle.std.specs.Prelude.{◌≡◌, ◌≤◌, ◌∷◌, [], get_or, length, IfOk, IfSome, None, Some};
ghost use Rattle.std.proofs.Common.{rules};
ghost use Rattle.std.specs.Cmp.{partial_order_from_total};
ghost use Rattle.std.specs.Cmp.Rules.{comparing};
ghost use Rattle.std.specs.Ordering.{as_partial_cmp, eq_by_cmp};
ghost use Rattle.answer_rules.specs.Keys.{key_order};
ghost use Rattle.answer_rules.proofs.Totals.{key_total};
ghost use Rattle.group_key.specs.declared.limits.TheConstants.{SHORT_KEY_MOST};
ghost use Rattle.group_key.specs.KeyValues.{few_values, first_of_four, values_in};

use crate::limits::SHORT_KEY_MOST;
use crate::short_key::{OpenKey, ShortKey};
use sky_io::Memory;
use std::alloc::Global;
use std::cmp::Ordering;
use std::marker::Model;

/// The values of a key, which are in the key itself if they are few.
#[derive(Drop)]
pub(crate) enum Values {
    /// The first `taken` of these, each of which is a number if it is `present`, and otherwise NULL.
    Short {
        taken: u8,
        present: [bool; SHORT_KEY_MOST],
        numbers: [i64; SHORT_KEY_MOST],
    },
    Long(Vec<Option<i64>>),
}

/// The values of the key columns. `None` is NULL, which equals itself and comes first.
#[derive(Drop)]
pub struct Key {
    values: Values,
}

impl Model for Key {
    ghost use Rattle.std.specs.Prelude.{List, Option, ℤ};
    ghost use Rattle.group_key.specs.KeyValues.{values_in};

    ghost Value = { List (Option ℤ) };

    ghost view = { λ k. values_in k.values };
}

/// Returns the value at a position, or NULL if there is none.
fn value_at(values: &[Option<i64>], place: usize) -> Option<i64>
    ensures { result ≡ get_or values.now place None }
{
    match values.get(place) {
        None => None,
        Some(value) => *value,
    }
}

/// Returns the number of a value, or any number for NULL.
fn number_of(value: Option<i64>) -> i64
    ensures { IfSome value (λ n. result ≡ n) }
{
    match value {
        None => 0,
        Some(number) => number,
    }
}

/// Packs the first n of these values.
fn packed(taken: u8, a: Option<i64>, b: Option<i64>, c: Option<i64>, d: Option<i64>) -> Values
    ensures { values_in result ≡ first_of_four taken a b c d }
{
    Values::Short {
        taken,
        present: [a.is_some(), b.is_some(), c.is_some(), d.is_some()],
        numbers: [number_of(a), number_of(b), number_of(c), number_of(d)],
    }
}

/// Returns the number of a short key of one column, if its value is a number.
fn single_value_in(
    taken: u8,
    present: &[bool; SHORT_KEY_MOST],
    numbers: &[i64; SHORT_KEY_MOST],
) -> Option<i64>
    ensures { IfSome result (λ n. few_values taken present.now numbers.now ≡ Some n ∷ []) }
{
    if taken == 1 && present[0] {
        return Some(numbers[0]);
    }
    None
}

impl Key {
    /// Creates the key of these values. Allocates memory for more than four of them.
    pub fn from_slice(alloc: Global, values: &[Option<i64>]) -> Result<Key, Memory>
        ensures { IfOk result (λ key. key ≡ values.now) }
    {
        if values.len() <= SHORT_KEY_MOST {
            return Ok(Key::short(values));
        }
        Ok(Key {
            values: Values::Long(Vec::from_slice(alloc, values)?),
        })
    }

    /// Creates the key of at most four values. Does not allocate.
    pub fn short(values: &[Option<i64>]) -> Key
        requires { length values.now ≤ SHORT_KEY_MOST }
        ensures { result ≡ values.now }
    {
        Key {
            values: packed(
                values.len() as u8,
                value_at(values, 0),
                value_at(values, 1),
                value_at(values, 2),
                value_at(values, 3),
            ),
        }
    }

    /// Creates the key without values. Does not allocate.
    pub fn none() -> Key
        ensures { result ≡ [] }
    {
        Key {
            values: packed(0, None, None, None, None),
        }
    }

    /// Returns the number of a key of one column, if its value is a number.
    pub fn single_value(&self) -> Option<i64>
        ensures { IfSome result (λ n. self.now ≡ Some n ∷ []) }
    {
        match &self.values {
            Values::Short {
                taken,
                present,
                numbers,
            } => single_value_in(*taken, present, numbers),
            Values::Long(_) => None,
        }
    }

    /// Returns the values as one slice. Does not allocate.
    pub fn open(&self) -> OpenKey<'_>
        ensures { result ≡ self.now }
    {
        match &self.values {
            Values::Short {
                taken,
                present,
                numbers,
            } => OpenKey::few(ShortKey::of(*taken, present, numbers)),
            Values::Long(values) => OpenKey::many(values.as_slice()),
        }
    }
}

/// Compares two keys of any length, value by value.
fn order_by_values(a: &Key, b: &Key) -> Ordering
    ensures { result ≡ key_order a.now b.now }
{
    let a = a.open();
    let b = b.open();
    a.as_slice().cmp(b.as_slice())
}

/// Compares two keys.
fn order_of(a: &Key, b: &Key) -> Ordering
    ensures { result ≡ key_order a.now b.now }
{
    match (a.single_value(), b.single_value()) {
        (Some(a), Some(b)) => a.cmp(&b),
        _ => order_by_values(a, b),
    }
}

impl Ord for Key {
    ghost cmp = { key_order };

    ghost total = { key_total };

    ghost matches_partial_cmp = { Prim.search (comparing, rules) depth 9 };

    ghost matches_eq = { Prim.search (comparing, rules) depth 9 };

    fn cmp(&self, other: &Key) -> Ordering {
        order_of(self, other)
    }
}

impl PartialOrd for Key {
    ghost partial_cmp = { as_partial_cmp key_order };

    ghost laws = { partial_order_from_total key_total };

    fn partial_cmp(&self, other: &Key) -> Option<Ordering> {
        Some(self.cmp(other))
    }
}

impl Eq for Key {
    ghost laws = { Prim.search (comparing, rules) depth 9 };
}

impl PartialEq for Key {
    ghost eq = { eq_by_cmp key_order };

    ghost laws = { Prim.search (comparing, rules) depth 9 };

    fn eq(&self, other: &Key) -> bool {
        self.cmp(other) == Ordering::Equal
    }
}
