//! The truth values of a condition on some rows.
ghost use Rattle.std.specs.Prelude.{◌≡◌, ◌<◌, None, false, length, get_or, map};
ghost use Rattle.value_rules.specs.Truth.{is_true};
ghost use Rattle.column_vectors.specs.Flags.{truth_by, truths_in};

use crate::flags::Flags;
use crate::scratch::Scratch;
use std::marker::Model;

/// The truth values, one for each row; `None` is unknown.
#[derive(Drop)]
pub struct TruthList {
    /// The rows on which the condition is true.
    true_on: Vec<bool>,
    /// The rows on which the condition is false.
    false_on: Vec<bool>,
}

impl Model for TruthList {
    ghost use Rattle.std.specs.Prelude.{◌≡◌, Bool, List, Option, length};
    ghost use Rattle.column_vectors.specs.Flags.{truths_in};

    ghost Value = { List (Option Bool) };

    ghost view = { λ t. truths_in t.true_on.items t.false_on.items };

    ghost invariant = { λ t. length t.false_on.items ≡ length t.true_on.items };
}

impl TruthList {
    /// Creates the truth values that the flags represent.
    pub fn of(flags: Flags) -> TruthList
        requires { length flags.false_on.items ≡ length flags.true_on.items }
        ensures { result ≡ truths_in flags.true_on.items flags.false_on.items }
    {
        TruthList {
            true_on: flags.true_on,
            false_on: flags.false_on,
        }
    }

    /// Returns the number of rows. Does not allocate.
    pub fn len(&self) -> usize
        ensures { result ≡ length self.now }
    {
        self.true_on.len()
    }

    /// Returns the truth value of the row with this number, from 0; `None` is unknown. Does not allocate.
    pub fn get(&self, i: usize) -> Option<bool>
        requires { i < length self.now }
        ensures { result ≡ get_or self.now i None }
    {
        truth_at(self.true_on.as_slice(), self.false_on.as_slice(), i)
    }

    /// Returns on which rows the condition is true, and not unknown. Does not allocate.
    pub fn holds(&self) -> &[bool]
        ensures { result.now ≡ map is_true self.now }
    {
        self.true_on.as_slice()
    }

    /// Gives the vectors back to the scratch, for the next evaluation. Does not allocate.
    pub fn give_back(self, scratch: &mut Scratch) {
        scratch.flags.give(self.true_on);
        scratch.flags.give(self.false_on);
    }
}

/// Returns the truth value that two masks represent at an index.
fn truth_at(true_on: &[bool], false_on: &[bool], i: usize) -> Option<bool>
    requires true_on { i < length true_on.now }
    requires false_on { i < length false_on.now }
    ensures { result ≡ truth_by (get_or true_on.now i false) (get_or false_on.now i false) }
{
    if true_on[i] {
        Some(true)
    } else if false_on[i] {
        Some(false)
    } else {
        None
    }
}
