//! A group of an aggregation table: its key, the number of its rows, and where its aggregate states are.

ghost use Rattle.std.specs.Prelude.{◌≡◌};
ghost use Rattle.std.proofs.Common.{rules};
ghost use Rattle.std.proofs.lemmas.Cmp.{on_total};
ghost use Rattle.std.specs.Cmp.{partial_order_from_total};
ghost use Rattle.std.specs.Cmp.Rules.{comparing};
ghost use Rattle.std.specs.Ordering.{as_partial_cmp, eq_by_cmp, on};
ghost use Rattle.answer_rules.specs.Keys.{key_order};
ghost use Rattle.answer_rules.proofs.Totals.{key_total};
ghost use Rattle.partial_groups.specs.declared.group_entry.GroupEntry.{GroupEntry};
ghost use Rattle.partial_groups.specs.Groups.{width_of};

use group_key::Key;
use std::cmp::Ordering;
use std::mem::replace;

/// A key, the number of its rows, and the range of its aggregate states in its aggregation table, from `from` to before
/// `to`.
#[derive(Drop)]
pub(crate) struct GroupEntry {
    pub(crate) key: Key,
    pub(crate) rows: u32,
    pub(crate) from: usize,
    pub(crate) to: usize,
}

impl GroupEntry {
    /// Returns the number of its aggregate states.
    pub(crate) fn width(&self) -> usize
        ensures { result ≡ width_of self.now }
    {
        self.to.saturating_sub(self.from)
    }

    /// Takes the group out, and leaves one without a key in its place.
    pub(crate) fn take(&mut self) -> GroupEntry
        ensures { result ≡ self.old }
    {
        GroupEntry {
            key: replace(&mut self.key, Key::none()),
            rows: self.rows,
            from: self.from,
            to: self.to,
        }
    }
}

impl Ord for GroupEntry {
    ghost cmp = { on (λ m. m.key) key_order };

    ghost total = { on_total (λ (m : GroupEntry). m.key) key_total };

    ghost matches_partial_cmp = { Prim.search (comparing, rules) depth 9 };

    ghost matches_eq = { Prim.search (comparing, rules) depth 9 };

    fn cmp(&self, other: &GroupEntry) -> Ordering {
        self.key.cmp(&other.key)
    }
}

impl PartialOrd for GroupEntry {
    ghost partial_cmp = { as_partial_cmp (on (λ m. m.key) key_order) };

    ghost laws = { partial_order_from_total (on_total (λ (m : GroupEntry). m.key) key_total) };

    fn partial_cmp(&self, other: &GroupEntry) -> Option<Ordering> {
        Some(self.cmp(other))
    }
}

impl Eq for GroupEntry {
    ghost laws = { Prim.search (comparing, rules) depth 9 };
}

impl PartialEq for GroupEntry {
    ghost eq = { eq_by_cmp (on (λ m. m.key) key_order) };

    ghost laws = { Prim.search (comparing, rules) depth 9 };

    fn eq(&self, other: &GroupEntry) -> bool {
        self.cmp(other) == Ordering::Equal
    }
}
