//! The area tests of WHERE, with their centres and directions.
ghost use Rattle.std.specs.Prelude.{◌≡◌, ◌++◌, option_to_list, IfOk, IsTrue};
ghost use Rattle.std.specs.List.{flat_map};
ghost use Rattle.bind_rules.specs.IdTests.{areas_by};
ghost use Rattle.bind_rules.specs.Tops.{top_tests};
ghost use Rattle.query_walks.specs.Gathering.{test_of};

use bind_checks::{Gather, TestRef, area_test, walk};
use sql_bound::{AreaTest, Areas};
use sql_tree::Query;
use sqlite_items::Items;
use std::alloc::{AllocError, Global};

// Area tests in their order, and whether all of them are there.
#[derive(Drop)]
struct AreaList {
    areas: Areas,
    is_whole: bool,
}

impl Gather for AreaList {
    ghost use Rattle.std.specs.Prelude.{◌++◌};
    ghost use Rattle.bind_rules.specs.IdTests.{areas_by};
    ghost use Rattle.query_walks.specs.Behind.{top_only};

    ghost kept = { λ s. s.is_whole };

    ghost after = { λ s f. record { areas = s.areas ++ top_only areas_by f; is_whole = s.is_whole } };

    fn look(&mut self, test: &TestRef<'_>, top: bool) {
        if self.is_whole && top {
            self.is_whole = push_test(&mut self.areas, test);
        }
    }
}

// Appends the area test that this test may be, and returns whether there was memory for it.
fn push_test(areas: &mut Areas, test: &TestRef<'_>) -> bool
    ensures { IsTrue result → areas.new ≡ areas.old ++ areas_by (test_of test.now) }
{
    match test {
        TestRef::Area { kind, args, .. } => push_area(areas, area_test(*kind, args)),
        _ => true,
    }
}

// Appends an area test, if there is one, and returns whether there was memory for it.
fn push_area(areas: &mut Areas, test: Option<AreaTest>) -> bool
    ensures { IsTrue result → areas.new ≡ areas.old ++ option_to_list test }
{
    match test {
        Some(test) => areas.push(test).is_ok(),
        None => true,
    }
}

/// Returns the area tests of a query, in the order of the text. Allocates memory for them.
pub(crate) fn areas_of(alloc: Global, query: &Query) -> Result<Areas, AllocError>
    ensures { IfOk result (λ areas. areas ≡ flat_map areas_by (top_tests query.now.cond)) }
{
    let mut list = AreaList {
        areas: Items::new(alloc),
        is_whole: true,
    };
    walk(&mut list, &query.cond);
    let AreaList { areas, is_whole } = list;
    if is_whole { Ok(areas) } else { Err(AllocError) }
}
