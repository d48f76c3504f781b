//! The aggregate state of a group for one aggregate, in 32 bytes.

ghost use Rattle.std.specs.Prelude.{◌≡◌, ◌≤◌, ◌^◌, nat_abs};
ghost use Rattle.value_rules.specs.Widths.{IsOfSize};
ghost use Rattle.answer_rules.specs.Gather.{plus};
ghost use Rattle.answer_rules.specs.Parts.{add_own, join_by};
ghost use Rattle.partial_groups.specs.Adding.{MayAdd};

use answer_rules::Way;
use std::marker::Model;

/// The combine function of an aggregate, how many values it counts, and what they combine to, if there are any.
#[derive(Drop)]
pub struct Tally {
    way: Way,
    some: bool,
    seen: u32,
    value: i128,
}

impl Model for Tally {
    ghost use Rattle.answer_rules.specs.Parts.{Part};
    ghost use Rattle.partial_groups.specs.Groups.{tally_of};

    ghost Value = { Part };

    ghost view = { λ t. tally_of t.way t.seen t.some t.value };
}

impl Tally {
    /// Creates the aggregate state with this combine function, over the given number of values that combine to `value`.
    /// Does not allocate.
    pub fn new(way: Way, seen: u32, value: Option<i128>) -> Tally
        ensures { result ≡ record { way = way; seen = seen; value = value } }
    {
        match value {
            None => Tally {
                way,
                some: false,
                seen,
                value: 0,
            },
            Some(value) => Tally {
                way,
                some: true,
                seen,
                value,
            },
        }
    }

    /// Returns a copy of the aggregate state. Does not allocate.
    pub(crate) fn copy(&self) -> Tally
        ensures { result ≡ self.now }
    {
        Tally {
            way: self.way,
            some: self.some,
            seen: self.seen,
            value: self.value,
        }
    }

    /// Returns how many values it counts.
    pub(crate) fn seen(&self) -> u32
        ensures { result ≡ self.now.seen }
    {
        self.seen
    }

    /// Returns what the values combine to, if there are any.
    pub(crate) fn value(&self) -> Option<i128>
        ensures { result ≡ self.now.value }
    {
        if self.some { Some(self.value) } else { None }
    }

    /// Returns the aggregate state of the values of both, combined as this one is. Does not allocate.
    pub(crate) fn added(&self, other: &Tally) -> Tally
        requires { MayAdd self.now other.now }
        ensures { result ≡ add_own self.now other.now }
    {
        Tally::new(
            self.way,
            self.seen + other.seen,
            joined(self.way, self.value(), other.value()),
        )
    }
}

/// Combines two values.
fn join_two(way: Way, a: i128, b: i128) -> i128
    requires a_size { nat_abs a ≤ 2 ^ 124 }
    requires b_size { nat_abs b ≤ 2 ^ 124 }
    ensures { result ≡ join_by way a b }
{
    match way {
        Way::Added => a + b,
        Way::Least => if a <= b { a } else { b },
        Way::Greatest => if a <= b { b } else { a },
    }
}

/// Combines two values, of which either may be missing.
fn joined(way: Way, a: Option<i128>, b: Option<i128>) -> Option<i128>
    requires a_size { IsOfSize (2 ^ 124) a }
    requires b_size { IsOfSize (2 ^ 124) b }
    ensures { result ≡ plus (join_by way) a b }
{
    match (a, b) {
        (None, b) => b,
        (Some(a), None) => Some(a),
        (Some(a), Some(b)) => Some(join_two(way, a, b)),
    }
}
