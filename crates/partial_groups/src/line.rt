//! A line of an answer of groups: its sort key, and its group.

ghost use Rattle.std.specs.Prelude.{◌≡◌};
ghost use Rattle.std.proofs.Common.{rules};
ghost use Rattle.std.proofs.lemmas.Cmp.{int_cmp_total, nat_cmp_total, on_total, then_total};
ghost use Rattle.std.specs.Cmp.{partial_order_from_total};
ghost use Rattle.std.specs.Cmp.Rules.{comparing};
ghost use Rattle.std.specs.Ordering.{as_partial_cmp, eq_by_cmp, int_cmp, nat_cmp, on, then_cmp};
ghost use Rattle.answer_rules.specs.Keys.{key_order};
ghost use Rattle.answer_rules.proofs.Totals.{key_total};
ghost use Rattle.partial_groups.specs.declared.line.Line.{Line};

use crate::group_entry::GroupEntry;
use std::cmp::Ordering;

/// The sort key of a group and the group. The direction of the order and NULL are encoded in the sort key.
#[derive(Drop)]
pub(crate) struct Line {
    pub(crate) class: u8,
    pub(crate) value: i128,
    pub(crate) group: GroupEntry,
}

impl Ord for Line {
    ghost cmp = { then_cmp (on (λ l. l.class) nat_cmp)
        (then_cmp (on (λ l. l.value) int_cmp) (on (λ l. l.group.key) key_order)) };

    ghost total = { then_total (on_total (λ (l : Line). l.class) nat_cmp_total)
        (then_total (on_total (λ (l : Line). l.value) int_cmp_total)
        (on_total (λ (l : Line). l.group.key) key_total)) };

    ghost matches_partial_cmp = { Prim.search (comparing, rules) depth 9 };

    ghost matches_eq = { Prim.search (comparing, rules) depth 9 };

    fn cmp(&self, other: &Line) -> Ordering {
        self.class
            .cmp(&other.class)
            .then(self.value.cmp(&other.value))
            .then(self.group.cmp(&other.group))
    }
}

impl PartialOrd for Line {
    ghost partial_cmp = { as_partial_cmp (then_cmp (on (λ l. l.class) nat_cmp)
        (then_cmp (on (λ l. l.value) int_cmp) (on (λ l. l.group.key) key_order))) };

    ghost laws = { partial_order_from_total (then_total (on_total (λ (l : Line). l.class) nat_cmp_total)
        (then_total (on_total (λ (l : Line). l.value) int_cmp_total)
        (on_total (λ (l : Line). l.group.key) key_total))) };

    fn partial_cmp(&self, other: &Line) -> Option<Ordering> {
        Some(self.cmp(other))
    }
}

impl Eq for Line {
    ghost laws = { Prim.search (comparing, rules) depth 9 };
}

impl PartialEq for Line {
    ghost eq = { eq_by_cmp (then_cmp (on (λ l. l.class) nat_cmp)
        (then_cmp (on (λ l. l.value) int_cmp) (on (λ l. l.group.key) key_order))) };

    ghost laws = { Prim.search (comparing, rules) depth 9 };

    fn eq(&self, other: &Line) -> bool {
        self.cmp(other) == Ordering::Equal
    }
}
