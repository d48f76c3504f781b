//! The limit of a join: the largest squared chord that its chord test accepts.
ghost use Rattle.std.specs.Prelude.{◌≡◌, ◌-ℤ◌, if◌then◌else◌, pos, option_to_list};
ghost use Rattle.std.specs.List.{flat_map};
ghost use Rattle.bind_rules.specs.Binding.{chord_limit, first_or};
ghost use Rattle.bind_rules.specs.Tops.{top_tests};
ghost use Rattle.query_walks.specs.Gathering.{test_of};

use bind_checks::{Gather, TestRef, walk};
use sql_tree::{Int, Query};

// Returns the largest squared chord below the n of a strict chord test, or the n of another.
fn limit_of(strict: bool, n: &Int) -> i64
    ensures { result ≡ (if strict then n.now -ℤ pos 1 else n.now) }
{
    let n = n.get();
    if strict { n - 1 } else { n }
}

// Returns the largest squared chord that the test accepts, if it is a chord test.
fn test_limit(test: &TestRef<'_>) -> Option<i64>
    ensures { option_to_list result ≡ chord_limit (test_of test.now) }
{
    match test {
        TestRef::Chord { strict, n, .. } => Some(limit_of(*strict, n)),
        _ => None,
    }
}

// The limit of the first chord test at the top.
#[derive(Drop)]
struct FirstLimit {
    limit: Option<i64>,
}

impl Gather for FirstLimit {
    ghost use Rattle.std.specs.Prelude.{true};
    ghost use Rattle.bind_rules.specs.Binding.{chord_limit};
    ghost use Rattle.query_walks.specs.Behind.{first_behind, top_only};

    ghost kept = { λ _. true };

    ghost after = { λ s f. record { limit = first_behind s.limit (top_only chord_limit f) } };

    fn look(&mut self, test: &TestRef<'_>, top: bool) {
        if top && self.limit.is_none() {
            self.limit = test_limit(test);
        }
    }
}

/// Returns the largest squared chord that the first chord test among the conjuncts of a query accepts, and 0 if it has
/// none. Does not allocate.
pub(crate) fn chord_limit(query: &Query) -> i64
    ensures { result ≡ first_or (pos 0) (flat_map chord_limit (top_tests query.now.cond)) }
{
    let mut first = FirstLimit { limit: None };
    walk(&mut first, &query.cond);
    match first.limit {
        Some(limit) => limit,
        None => 0,
    }
}
