//! A row of a multiset: its sort key, and where its values are.

ghost use Rattle.std.specs.Prelude.{◌≡◌, ◌+◌, ◌≤◌, ◌^◌, ◌-◌};
ghost use Rattle.std.proofs.Common.{rules};
ghost use Rattle.std.specs.Cmp.{partial_order_from_own_ties};
ghost use Rattle.std.specs.Cmp.Rules.{comparing};
ghost use Rattle.std.specs.Ordering.{nat_cmp, int_cmp, on, then_cmp, as_partial_cmp, eq_by_cmp};
ghost use Rattle.partial_rows.specs.Rows.{moved, placed};

use std::cmp::Ordering;

/// A row's sort key, as in `OutRow`, and the range of its values in its multiset, from `from` to before `to`: 64 bytes.
#[derive(Clone, Copy, Drop)]
pub(crate) struct Ranked {
    pub(crate) class: u8,
    pub(crate) value: i128,
    pub(crate) first: i64,
    pub(crate) second: i64,
    pub(crate) from: usize,
    pub(crate) to: usize,
}

impl Ranked {
    /// Returns the row with its values from this position on.
    pub(crate) fn placed(&self, from: usize) -> Ranked
        requires order { self.now.from ≤ self.now.to }
        requires fits { from + (self.now.to - self.now.from) ≤ 2 ^ 64 - 1 }
        ensures { result ≡ placed from self.now }
    {
        Ranked {
            class: self.class,
            value: self.value,
            first: self.first,
            second: self.second,
            from,
            to: from + (self.to - self.from),
        }
    }

    /// Returns the row with its values shifted by the given offset.
    pub(crate) fn moved(&self, by: usize) -> Ranked
        requires from { self.now.from + by ≤ 2 ^ 64 - 1 }
        requires to { self.now.to + by ≤ 2 ^ 64 - 1 }
        ensures { result ≡ moved by self.now }
    {
        Ranked {
            class: self.class,
            value: self.value,
            first: self.first,
            second: self.second,
            from: self.from + by,
            to: self.to + by,
        }
    }
}

impl Ord for Ranked {
    ghost cmp = { then_cmp (on (λ r. r.class) nat_cmp)
        (then_cmp (on (λ r. r.value) int_cmp)
        (then_cmp (on (λ r. r.first) int_cmp) (on (λ r. r.second) int_cmp))) };

    ghost total = { Prim.search (comparing, rules) depth 9 };

    ghost matches_partial_cmp = { Prim.search (comparing, rules) depth 9 };

    ghost matches_eq = { Prim.search (comparing, rules) depth 9 };

    fn cmp(&self, other: &Ranked) -> Ordering {
        self.class
            .cmp(&other.class)
            .then(self.value.cmp(&other.value))
            .then(self.first.cmp(&other.first))
            .then(self.second.cmp(&other.second))
    }
}

impl PartialOrd for Ranked {
    ghost partial_cmp = { as_partial_cmp (then_cmp (on (λ r. r.class) nat_cmp)
        (then_cmp (on (λ r. r.value) int_cmp)
        (then_cmp (on (λ r. r.first) int_cmp) (on (λ r. r.second) int_cmp)))) };

    ghost laws = { partial_order_from_own_ties (Prim.search (comparing, rules) depth 9)
        (Prim.search (comparing, rules) depth 9) };

    fn partial_cmp(&self, other: &Ranked) -> Option<Ordering> {
        Some(self.cmp(other))
    }
}

impl Eq for Ranked {
    ghost laws = { Prim.search (comparing, rules) depth 9 };
}

impl PartialEq for Ranked {
    ghost eq = { eq_by_cmp (then_cmp (on (λ r. r.class) nat_cmp)
        (then_cmp (on (λ r. r.value) int_cmp)
        (then_cmp (on (λ r. r.first) int_cmp) (on (λ r. r.second) int_cmp)))) };

    ghost laws = { Prim.search (comparing, rules) depth 9 };

    fn eq(&self, other: &Ranked) -> bool {
        self.cmp(other) == Ordering::Equal
    }
}
