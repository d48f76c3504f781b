//! A sparse index of ascending ids: one entry for each granule of rows, with the id and the number of its first row.
//!
//! An id can only be in the last granule that begins no higher than the id. So it is searched for among the first ids,
//! which are few, and then among the ids of one granule.
ghost use Rattle.std.specs.Prelude.{◌≡◌, ◌≤◌, ◌<ℤ◌, AllPairs, IfNone, IfOk, IfSome, false, length};
ghost use Rattle.std.specs.List.{list_any};
ghost use Rattle.std.specs.Ordering.{int_eq};
ghost use Rattle.table_rules.specs.declared.limits.TheConstants.{ROWS_MOST};
ghost use Rattle.object_index.specs.Granules.{IsGranuleFor, IsRowWith, IsSparse};

use indexmap::IndexMap;
use sky_io::Memory;
use std::alloc::Global;

/// The number of rows of a granule; the last one has those that are left.
pub const GRANULE: usize = 1 << 12;

/// Returns the id of each granule's first row with that row's number. Allocates memory for one entry per granule.
pub(crate) fn first_rows(alloc: Global, ids: &[i64]) -> Result<IndexMap<i64, u32>, Memory>
    requires few { length ids.now ≤ ROWS_MOST }
    requires ascend { AllPairs (λ a b. a <ℤ b) ids.now }
    ensures { IfOk result (λ firsts. IsSparse ids.now firsts.entries) }
{
    let granules = ids.len().div_ceil(GRANULE);
    let Ok(mut firsts) = IndexMap::with_capacity(alloc, granules) else {
        return Err(Memory);
    };
    for granule in 0..granules {
        let first = granule * GRANULE;
        let Ok(_) = firsts.insert(ids[first], first as u32) else {
            return Err(Memory);
        };
    }
    Ok(firsts)
}

/// Returns the number of the row with the id, or `None` if no row has it. Does not allocate.
pub(crate) fn row_with(ids: &[i64], firsts: &IndexMap<i64, u32>, id: i64) -> Option<u32>
    requires few { length ids.now ≤ ROWS_MOST }
    requires ascend { AllPairs (λ a b. a <ℤ b) ids.now }
    requires sparse { IsSparse ids.now firsts.now.entries }
    ensures found { IfSome result (IsRowWith ids.now id) }
    ensures none { IfNone result (list_any (int_eq id) ids.now ≡ false) }
{
    match granule_for(ids, firsts, id) {
        Some(first) => row_among(ids, first as usize, id),
        None => None,
    }
}

/// Returns the number of the first row of the granule that has the id if any has it, or `None` if the id is below all
/// ids.
fn granule_for(ids: &[i64], firsts: &IndexMap<i64, u32>, id: i64) -> Option<u32>
    requires ascend { AllPairs (λ a b. a <ℤ b) ids.now }
    requires sparse { IsSparse ids.now firsts.now.entries }
    ensures some { IfSome result (IsGranuleFor ids.now id) }
    ensures none { IfNone result (list_any (int_eq id) ids.now ≡ false) }
{
    match firsts.binary_search_keys(&id) {
        Ok(granule) => Some(firsts[granule]),
        Err(0) => None,
        Err(next) => Some(firsts[next - 1]),
    }
}

/// Returns the number of the row with the id in the granule that begins at this row, or `None` if no row of it has the
/// id.
fn row_among(ids: &[i64], first: usize, id: i64) -> Option<u32>
    requires few { length ids.now ≤ ROWS_MOST }
    requires ascend { AllPairs (λ a b. a <ℤ b) ids.now }
    requires granule { IsGranuleFor ids.now id first }
    ensures found { IfSome result (IsRowWith ids.now id) }
    ensures none { IfNone result (list_any (int_eq id) ids.now ≡ false) }
{
    let end = ids.len().min(first + GRANULE);
    match ids[first..end].binary_search(&id) {
        Ok(at) => Some((first + at) as u32),
        Err(_) => None,
    }
}
