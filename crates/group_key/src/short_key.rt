//! The values of a key as one slice. So they are compared here (`key`), and above hashed for a cache of groups and read
//! for a line of the table.

ghost use Rattle.std.specs.Prelude.{◌≡◌, ◌≤◌, min};
ghost use Rattle.group_key.specs.declared.limits.TheConstants.{SHORT_KEY_MOST};
ghost use Rattle.group_key.specs.KeyValues.{few_values, cell_by};

use crate::limits::SHORT_KEY_MOST;
use std::marker::Model;

/// At most four values; `None` is NULL.
#[derive(Drop)]
pub struct ShortKey {
    /// The number of values.
    taken: usize,
    /// The values, and unused ones after them.
    values: [Option<i64>; SHORT_KEY_MOST],
}

impl Model for ShortKey {
    ghost use Rattle.std.specs.Prelude.{List, Option, ℤ, take, ◌≤◌};
    ghost use Rattle.group_key.specs.declared.limits.TheConstants.{SHORT_KEY_MOST};

    ghost Value = { List (Option ℤ) };

    ghost view = { λ k. take k.taken k.values };

    ghost invariant = { λ k. k.taken ≤ SHORT_KEY_MOST };
}

/// The values of a key, unpacked or borrowed.
#[derive(Drop)]
pub(crate) enum Cells<'k> {
    Few(ShortKey),
    Many(&'k [Option<i64>]),
}

/// The values of a key as one slice.
#[derive(Drop)]
pub struct OpenKey<'k> {
    cells: Cells<'k>,
}

impl<'k> Model for OpenKey<'k> {
    ghost use Rattle.std.specs.Prelude.{List, Option, ℤ};
    ghost use Rattle.group_key.specs.OpenKeys.{open_values};

    ghost Value = { List (Option ℤ) };

    ghost view = { λ k. open_values k.cells };
}

/// Returns a number, or NULL.
fn cell(present: bool, number: i64) -> Option<i64>
    ensures { result ≡ cell_by present number }
{
    if present { Some(number) } else { None }
}

/// Returns the number, or four if it is more.
fn at_most_four(taken: u8) -> usize
    ensures min { result ≡ min taken SHORT_KEY_MOST }
    ensures few { result ≤ SHORT_KEY_MOST }
{
    usize::from(taken).min(SHORT_KEY_MOST)
}

impl<'k> OpenKey<'k> {
    /// Creates the value that holds a short key's values.
    pub fn few(values: ShortKey) -> OpenKey<'k>
        ensures { result ≡ values }
    {
        OpenKey {
            cells: Cells::Few(values),
        }
    }

    /// Creates the value that borrows a slice.
    pub(crate) fn many(values: &'k [Option<i64>]) -> OpenKey<'k>
        ensures { result ≡ values.now }
    {
        OpenKey {
            cells: Cells::Many(values),
        }
    }

    /// Returns the values, in their order.
    pub fn as_slice(&self) -> &[Option<i64>]
        ensures { result.now ≡ self.now }
    {
        match &self.cells {
            Cells::Few(values) => values.as_slice(),
            Cells::Many(values) => *values,
        }
    }
}

impl ShortKey {
    /// Returns the first n of these values.
    pub fn of(
        taken: u8,
        present: &[bool; SHORT_KEY_MOST],
        numbers: &[i64; SHORT_KEY_MOST],
    ) -> ShortKey
        ensures { result ≡ few_values taken present.now numbers.now }
    {
        ShortKey {
            taken: at_most_four(taken),
            values: [
                cell(present[0], numbers[0]),
                cell(present[1], numbers[1]),
                cell(present[2], numbers[2]),
                cell(present[3], numbers[3]),
            ],
        }
    }

    /// Returns the values, in their order.
    pub fn as_slice(&self) -> &[Option<i64>]
        ensures { result.now ≡ self.now }
    {
        &self.values[..self.taken]
    }
}
