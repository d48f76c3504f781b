//! The sources that are left after the conditions on the source alone.
ghost use Rattle.std.specs.Prelude.{◌≡◌, ◌<◌, ◌^◌, IfOk, length, replicate, true};
ghost use Rattle.lane_filter.specs.Tests.{places_of};
ghost use Rattle.source_row.specs.SourceColumns.{AreEven, source_at};
ghost use Rattle.source_filter.specs.Candidates.{AreCandidates, Fails, FailsTest, IsNarrowed};
ghost use Rattle.source_filter.specs.Masks.{IsNarrowedBy};

use crate::column_test::column_test;
use crate::id_scan::{Equals, flags_of, numbers_passing};
use crate::kernel::keep_passing;
use crate::object::{object_in, objects_in};
use crate::source_column::source_column;
use crate::test::ColumnTest;
use lane_filter::picked;
use sky_io::Memory;
use source_row::SourceLists;
use sql_bound::BoundCond;
use std::alloc::Global;

/// Returns the numbers of the sources, ascending, that may meet the conditions with their objects. Each other source
/// fails a condition with its object, if it has one. If a condition names objects by their ids, other columns are not read.
/// A source has `width` extra columns. Allocates memory for a flag and a number for each source, or, if a condition
/// names objects, for the numbers that are returned alone.
pub fn candidates(
    alloc: Global,
    lists: &SourceLists,
    width: usize,
    conds: &[BoundCond],
) -> Result<Vec<u32>, Memory>
    requires even { AreEven lists.now }
    requires width { width ≡ length lists.now.further }
    requires few { length lists.now.ids < 2 ^ 32 }
    ensures { IfOk result (λ numbers. AreCandidates conds.now lists.now numbers.items) }
{
    match object_in(conds) {
        Some(id) => numbers_passing(alloc, &Equals { id }, lists.objects()),
        None => of_listed(alloc, lists, width, conds),
    }
}

/// Returns the numbers of the sources, ascending, that may meet the conditions, if none of these names one object alone.
fn of_listed(
    alloc: Global,
    lists: &SourceLists,
    width: usize,
    conds: &[BoundCond],
) -> Result<Vec<u32>, Memory>
    requires even { AreEven lists.now }
    requires width { width ≡ length lists.now.further }
    requires few { length lists.now.ids < 2 ^ 32 }
    ensures { IfOk result (λ numbers. AreCandidates conds.now lists.now numbers.items) }
{
    match objects_in(conds) {
        Some(ids) => numbers_passing(alloc, &flags_of(ids), lists.objects()),
        None => passing(alloc, lists, width, conds),
    }
}

/// Returns the numbers of the sources, ascending, that pass each condition that is a test of a column of sources.
fn passing(
    alloc: Global,
    lists: &SourceLists,
    width: usize,
    conds: &[BoundCond],
) -> Result<Vec<u32>, Memory>
    requires even { AreEven lists.now }
    requires width { width ≡ length lists.now.further }
    requires few { length lists.now.ids < 2 ^ 32 }
    ensures { IfOk result (λ numbers. AreCandidates conds.now lists.now numbers.items) }
{
    let mut mask = Vec::from_elem(alloc, true, lists.len())?;
    narrow_all(lists, width, conds, mask.as_mut_slice());
    numbers_in(alloc, mask.as_slice())
}

/// Clears the mask by each condition that is a test of a column of sources.
#[tactic(auto, using(crate::proofs::Narrowing::narrowed_none))]
fn narrow_all(lists: &SourceLists, width: usize, conds: &[BoundCond], mask: &mut [bool])
    requires even { AreEven lists.now }
    requires width { width ≡ length lists.now.further }
    requires all { mask.old ≡ replicate (length lists.now.ids) true }
    ensures len { length mask.new ≡ length mask.old }
    ensures narrowed { IsNarrowed conds.now lists.now mask.new }
{
    for i in 0..conds.len() {
        narrow_by(lists, width, &conds[i], mask);
    }
}

/// Clears the mask by the condition, if it is a test of a column.
#[tactic(auto, using(crate::proofs::Keeping::narrowed_not))]
fn narrow_by(lists: &SourceLists, width: usize, c: &BoundCond, mask: &mut [bool])
    requires even { AreEven lists.now }
    requires width { width ≡ length lists.now.further }
    requires count { length lists.now.ids ≡ length mask.old }
    ensures { IsNarrowedBy (λ k. Fails c.now (source_at lists.now k)) mask.old mask.new }
{
    if let Some(test) = column_test(c) {
        narrow_to(lists, width, test, mask);
    }
}

/// Clears the mask by the test, if its column is one of sources.
#[tactic(auto, using(crate::proofs::Keeping::narrowed_not))]
fn narrow_to(lists: &SourceLists, width: usize, test: ColumnTest, mask: &mut [bool])
    requires even { AreEven lists.now }
    requires width { width ≡ length lists.now.further }
    requires count { length lists.now.ids ≡ length mask.old }
    ensures { IsNarrowedBy (λ k. FailsTest test (source_at lists.now k)) mask.old mask.new }
{
    if let Some(column) = source_column(test.col, width) {
        keep_passing(lists, column, test.test, mask);
    }
}

/// Returns the numbers at which the mask is true, ascending.
fn numbers_in(alloc: Global, mask: &[bool]) -> Result<Vec<u32>, Memory>
    requires { length mask.now < 2 ^ 32 }
    ensures { IfOk result (λ numbers. numbers.items ≡ places_of mask.now) }
{
    let mut numbers = Vec::from_elem(alloc, 0, mask.len())?;
    let count = picked(mask, numbers.as_mut_slice());
    numbers.truncate(count);
    Ok(numbers)
}
