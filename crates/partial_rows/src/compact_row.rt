//! A compact row of a multiset: it sorts as a row without an order key, and has as many values as the other compact
//! rows.

ghost use Rattle.std.specs.Prelude.{◌≡◌, ◌+◌, ◌-◌, ◌≤◌, ◌^◌};
ghost use Rattle.std.proofs.Common.{rules};
ghost use Rattle.std.specs.Cmp.{partial_order_from_own_ties};
ghost use Rattle.std.specs.Cmp.Rules.{comparing};
ghost use Rattle.std.specs.Ordering.{int_cmp, on, then_cmp, as_partial_cmp, eq_by_cmp};
ghost use Rattle.partial_rows.specs.CompactRows.{compact_of, full};

use crate::ranked::Ranked;
use std::cmp::Ordering;

/// The ids of a row, which alone are its sort key, and the position of its first value: 24 bytes.
#[derive(Clone, Copy, Drop)]
pub(crate) struct CompactRow {
    pub(crate) first: i64,
    pub(crate) second: i64,
    pub(crate) from: usize,
}

impl CompactRow {
    /// Creates the compact row of a row, which must have as many values as the other compact rows.
    pub(crate) fn of(row: &Ranked) -> CompactRow
        ensures { result ≡ compact_of row.now }
    {
        CompactRow {
            first: row.first,
            second: row.second,
            from: row.from,
        }
    }

    /// Returns the row, with the given number of values.
    pub(crate) fn full(&self, width: usize) -> Ranked
        requires { self.now.from + width ≤ 2 ^ 64 - 1 }
        ensures { result ≡ full width self.now }
    {
        Ranked {
            class: 0,
            value: 0,
            first: self.first,
            second: self.second,
            from: self.from,
            to: self.from + width,
        }
    }
}

impl Ord for CompactRow {
    ghost cmp = { then_cmp (on (λ p. p.first) int_cmp) (on (λ p. p.second) int_cmp) };

    ghost total = { Prim.search (comparing, rules) depth 9 };

    ghost matches_partial_cmp = { Prim.search (comparing, rules) depth 9 };

    ghost matches_eq = { Prim.search (comparing, rules) depth 9 };

    fn cmp(&self, other: &CompactRow) -> Ordering {
        self.first
            .cmp(&other.first)
            .then(self.second.cmp(&other.second))
    }
}

impl PartialOrd for CompactRow {
    ghost partial_cmp = { as_partial_cmp
        (then_cmp (on (λ p. p.first) int_cmp) (on (λ p. p.second) int_cmp)) };

    ghost laws = { partial_order_from_own_ties (Prim.search (comparing, rules) depth 9)
        (Prim.search (comparing, rules) depth 9) };

    fn partial_cmp(&self, other: &CompactRow) -> Option<Ordering> {
        Some(self.cmp(other))
    }
}

impl Eq for CompactRow {
    ghost laws = { Prim.search (comparing, rules) depth 9 };
}

impl PartialEq for CompactRow {
    ghost eq = { eq_by_cmp (then_cmp (on (λ p. p.first) int_cmp) (on (λ p. p.second) int_cmp)) };

    ghost laws = { Prim.search (comparing, rules) depth 9 };

    fn eq(&self, other: &CompactRow) -> bool {
        self.cmp(other) == Ordering::Equal
    }
}
